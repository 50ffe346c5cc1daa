// The mender takes the lines of a recording one after the other, and prints what each of them comes to. Of what it read it holds the grid, the place after the
// last good line, its sample, and the second of the line just before.
ghost use Rattle.std.specs.Prelude.{◌≡◌, ◌-◌, ◌≤◌, true, not, ◌&&◌, ◌==◌};
ghost use Rattle.reading.specs.Entry.{entry_of};
ghost use Rattle.sheets.specs.Putting.{WroteUpTo};
ghost use Rattle.vocabulary.specs.Refusals.{accepted};
ghost use Rattle.vocabulary.specs.Stage.{closed_at, open_at};
ghost use Rattle.vocabulary.specs.declared.stage.Stage.TheVariants.{Closed};
ghost use Rattle.mending.specs.declared.mender.Sorted.TheVariants.{Good};
ghost use Rattle.mending.specs.Mending.{items_text};
ghost use Rattle.mending.specs.Mender.{Turns, empty_mender, opened_by, sorted_at, hole_refusal, sorted_refusal, row_refusal, end_refusal, row_items, rest_items};
ghost use Rattle.mending.specs.Mender.{earlier_than, dropped_at, taken_at, with_row, refused_turn, open_turn, sorted_turn, row_turn};
ghost use Rattle.mending.specs.Mender.{end_turn, first_turn, next_turn, line_turn, finish_turn, at_stage};

use crate::grid::{Grid, grid_of, is_long, is_outside, place_of};
use crate::marks::{put_mark, put_missing, put_sample};
use arithmetic::whole::above_zero;
use reading::entry::{Entry, read_entry};
use settlement::grounds::open_refusal;
use sheets::put_refusal;
use vocabulary::header::Header;
use vocabulary::interval::Interval;
use vocabulary::recorded::Recorded;
use vocabulary::refusal::Refusal;
use vocabulary::sample::{Sample, in_range};
use vocabulary::stage::Stage;

// `next` is 0 until a good line came: the missing places are counted from there.
#[derive(Clone, Copy)]
pub struct Mender {
    stage: Stage,
    grid: Grid,
    next: u64,
    last: Sample,
    before: Option<i32>,
}

// What a second makes of a line: O, T, or good, with its place.
#[derive(Clone, Copy)]
pub enum Sorted {
    Stray,
    Repeated,
    Good(u32),
}

// What the mender answers to a line: what it holds then, and the place after what it printed.
#[derive(Clone, Copy)]
pub struct Told {
    pub mender: Mender,
    pub next: usize,
}

// Whether no good line came yet and this one is not at the start.
fn lacks_start(next: u64, place: u32) -> bool
    ensures { result ≡ (next == 0 && not (place == 0)) }
{
    next == 0 && place != 0
}

// Whether a second is smaller than that of the line just before, if there was one.
fn is_earlier(second: i32, before: Option<i32>) -> bool
    ensures { result ≡ earlier_than before second }
{
    before.is_some_and(|last| second < last)
}

impl Mender {
    // Nothing was read yet.
    pub fn new() -> Mender
        ensures { result ≡ empty_mender }
    {
        Mender {
            stage: Stage::Empty,
            grid: Grid {
                interval: Interval::One,
                places: 0,
            },
            next: 0,
            last: Sample {
                setpoint: 0,
                actual: 0,
            },
            before: None,
        }
    }

    // Whether the end or a refusal was printed.
    pub fn is_closed(self) -> bool
        ensures { result ≡ closed_at self.stage }
    {
        self.stage.is_closed()
    }

    // Whether lines are taken.
    pub fn is_open(self) -> bool
        ensures { result ≡ open_at self.stage }
    {
        self.stage.is_open()
    }

    fn sorted(self, second: i32) -> Sorted
        ensures { result ≡ sorted_at self second }
    {
        if is_outside(self.grid, second) {
            return Sorted::Stray;
        }
        let place = place_of(self.grid, above_zero(second));
        if u64::from(place) < self.next {
            return Sorted::Repeated;
        }
        Sorted::Good(place)
    }

    // What is missing before a good line: 19, 20.
    fn hole_refusal(self, place: u32) -> Result<(), Refusal>
        ensures { result ≡ hole_refusal self place }
    {
        if lacks_start(self.next, place) {
            return Err(Refusal::NoFirstSample);
        }
        if is_long(self.grid, self.next, place) {
            return Err(Refusal::HoleTooLong);
        }
        Ok(())
    }

    fn sorted_refusal(self, sorted: Sorted) -> Result<(), Refusal>
        ensures { result ≡ sorted_refusal self sorted }
    {
        match sorted {
            Sorted::Stray | Sorted::Repeated => Ok(()),
            Sorted::Good(place) => self.hole_refusal(place),
        }
    }

    fn row_refusal(self, sorted: Sorted, row: Recorded) -> Result<(), Refusal>
        ensures { result ≡ row_refusal self sorted row }
    {
        if !in_range(row.sample.setpoint) || !in_range(row.sample.actual) {
            return Err(Refusal::BadPower);
        }
        self.sorted_refusal(sorted)?;
        if is_earlier(row.second, self.before) {
            return Err(Refusal::SecondsOutOfOrder);
        }
        Ok(())
    }

    fn end_refusal(self) -> Result<(), Refusal>
        ensures { result ≡ end_refusal self }
    {
        if self.next == 0 {
            return Err(Refusal::NoFirstSample);
        }
        if is_long(self.grid, self.next, self.grid.places) {
            return Err(Refusal::HoleTooLong);
        }
        Ok(())
    }

    // What is missing up to a place, of which a hole that is not too long comes to at most 60 samples.
    fn put_rest(self, place: u32, out: &mut [u8], at: usize) -> usize
        requires { place - self.next ≤ 60 }
        ensures { WroteUpTo 4140 out.old at (items_text (rest_items self place)) result out.new }
    {
        put_missing(out, at, self.grid, self.last, self.next, place)
    }

    fn put_good(self, place: u32, row: Recorded, out: &mut [u8], at: usize) -> usize
        requires { place - self.next ≤ 60 }
        ensures { WroteUpTo 4184 out.old at (items_text (row_items self (Good place) row)) result out.new }
    {
        let own = self.put_rest(place, out, at);
        put_sample(out, own, row.sample)
    }

    // What a line that is not refused makes the mender print: its hole is not too long, so at most 60 samples are missing before it.
    fn put_sorted(self, sorted: Sorted, row: Recorded, out: &mut [u8], at: usize) -> usize
        requires { accepted (sorted_refusal self sorted) ≡ true }
        ensures { WroteUpTo 4184 out.old at (items_text (row_items self sorted row)) result out.new }
    {
        match sorted {
            Sorted::Stray => put_mark(out, at, i64::from(row.second), b'O'),
            Sorted::Repeated => put_mark(out, at, i64::from(row.second), b'T'),
            Sorted::Good(place) => self.put_good(place, row, out, at),
        }
    }

    // After a line that was dropped, and after a good one.
    fn dropped(self, second: i32) -> Mender
        ensures { result ≡ dropped_at self second }
    {
        Mender {
            before: Some(second),
            ..self
        }
    }

    fn taken(self, place: u32, row: Recorded) -> Mender
        ensures { result ≡ taken_at self place row }
    {
        Mender {
            next: u64::from(place) + 1,
            last: row.sample,
            before: Some(row.second),
            ..self
        }
    }

    fn with_row(self, sorted: Sorted, row: Recorded) -> Mender
        ensures { result ≡ with_row self sorted row }
    {
        match sorted {
            Sorted::Stray | Sorted::Repeated => self.dropped(row.second),
            Sorted::Good(place) => self.taken(place, row),
        }
    }

    fn closed(self) -> Mender
        ensures { result ≡ at_stage Closed self }
    {
        Mender {
            stage: Stage::Closed,
            ..self
        }
    }

    fn opened(self, grid: Grid) -> Mender
        ensures { result ≡ opened_by self grid }
    {
        Mender {
            stage: Stage::Open,
            grid,
            ..self
        }
    }

    // A refusal: its line is printed, and nothing is read any more. Each turn prints its own refusal, as its definition has it.
    fn refused(self, number: u64, refusal: Refusal, out: &mut [u8], at: usize) -> Told
        ensures { Turns out.old at (refused_turn self number (Err refusal)) result out.new }
    {
        let next = put_refusal(out, at, number, Err(refusal));
        Told {
            mender: self.closed(),
            next,
        }
    }

    // A header: nothing is printed for it.
    fn open(self, number: u64, header: Header, out: &mut [u8], at: usize) -> Told
        ensures { Turns out.old at (open_turn self number header) result out.new }
    {
        match open_refusal(header) {
            Ok(()) => Told {
                mender: self.opened(grid_of(header)),
                next: at,
            },
            Err(refusal) => self.refused(number, refusal, out, at),
        }
    }

    // A recorded sample, as its second sorts it.
    fn sorted_row(
        self,
        number: u64,
        sorted: Sorted,
        row: Recorded,
        out: &mut [u8],
        at: usize,
    ) -> Told
        ensures { Turns out.old at (sorted_turn self number sorted row) result out.new }
    {
        match self.row_refusal(sorted, row) {
            Ok(()) => Told {
                mender: self.with_row(sorted, row),
                next: self.put_sorted(sorted, row, out, at),
            },
            Err(refusal) => self.refused(number, refusal, out, at),
        }
    }

    pub fn row(self, number: u64, row: Recorded, out: &mut [u8], at: usize) -> Told
        ensures { Turns out.old at (row_turn self number row) result out.new }
    {
        let sorted = self.sorted(row.second);
        self.sorted_row(number, sorted, row, out, at)
    }

    // The end: what is missing up to the end of the stretch.
    fn end(self, number: u64, out: &mut [u8], at: usize) -> Told
        ensures { Turns out.old at (end_turn self number) result out.new }
    {
        match self.end_refusal() {
            Ok(()) => Told {
                mender: self.closed(),
                next: self.put_rest(self.grid.places, out, at),
            },
            Err(refusal) => self.refused(number, refusal, out, at),
        }
    }

    // Before the header, and after it.
    fn first(self, number: u64, entry: Entry, out: &mut [u8], at: usize) -> Told
        ensures { Turns out.old at (first_turn self number entry) result out.new }
    {
        match entry {
            Entry::Header(header) => self.open(number, header, out, at),
            Entry::Recorded(_) | Entry::End => self.refused(number, Refusal::WrongMoment, out, at),
            Entry::Malformed => self.refused(number, Refusal::BadLine, out, at),
        }
    }

    fn further(self, number: u64, entry: Entry, out: &mut [u8], at: usize) -> Told
        ensures { Turns out.old at (next_turn self number entry) result out.new }
    {
        match entry {
            Entry::Header(_) => self.refused(number, Refusal::WrongMoment, out, at),
            Entry::Recorded(row) => self.row(number, row, out, at),
            Entry::End => self.end(number, out, at),
            Entry::Malformed => self.refused(number, Refusal::BadLine, out, at),
        }
    }

    // One complete line, without its LF; lines count from 1. What it says is printed from place `at` on.
    pub fn line(self, number: u64, line: &[u8], out: &mut [u8], at: usize) -> Told
        ensures { Turns out.old at (line_turn self number line.now) result out.new }
    {
        let entry = read_entry(line);
        match self.stage {
            Stage::Empty => self.first(number, entry, out, at),
            Stage::Open => self.further(number, entry, out, at),
            Stage::Closed => Told {
                mender: self,
                next: at,
            },
        }
    }

    // The input ended, after so many complete lines.
    pub fn finish(self, count: u64, out: &mut [u8], at: usize) -> Told
        ensures { Turns out.old at (finish_turn self count) result out.new }
    {
        if self.is_closed() {
            return Told {
                mender: self,
                next: at,
            };
        }
        self.refused(count.wrapping_add(1), Refusal::NoEnd, out, at)
    }
}
