// Blocks of an input for the desk, in constant memory, however the input is cut: stretches of sample lines go by the reader of stretches,
// every other line by the reader of single lines. No line's meaning depends on which of them read it.
#![tactic(auto)]

ghost use Rattle.std.specs.Prelude.{ℕ, ◌≡◌, List, ◌+◌, ◌-◌, ◌≤◌, ◌<◌, ℤ, length, take, drop};
ghost use Rattle.lines.specs.Gathering.{gathered_of};
ghost use Rattle.lines.specs.Handing.{held_by};
ghost use Rattle.settlement.specs.Bare.{whole_of, with_more};
ghost use Rattle.sheets.specs.Buffer.{buffer_length};
ghost use Rattle.text.specs.Desk.{Tells, line_turn, quarter_turn, room_at};
ghost use Rattle.feed.specs.declared.Piece.TheVariants.{Samples};
ghost use Rattle.feed.specs.Reader.{empty_reader, feed_of, finish_of, fed_with, Yields};
ghost use Rattle.vocabulary.specs.Stage.{closed_at};
ghost use Rattle.feed.specs.Steps.{reader_with, desk_with, line_found, Finds, turn_by, Steps, after_of, goes_on, left_of, Reads};

use lines::Gatherer;
use samples::read_samples;
use settlement::bare::Bare;
use sheets::BUFFER;
use text::desk::{Desk, Told, samples};
use vocabulary::refusal::Refusal;
use vocabulary::stage::Stage;

// The line at hand, and the desk. Each of the three readers has a type of its own: promises name each.
#[derive(Clone, Copy)]
pub struct Reader {
    gatherer: Gatherer,
    desk: Desk,
}

// What a call answers: the reader after it, how many bytes of the block it used, and what it printed. A call that is lent fewer than BUFFER
// bytes does nothing, and says so.
#[derive(Clone, Copy)]
pub struct Fed {
    pub reader: Reader,
    pub used: usize,
    pub printed: Result<usize, Refusal>,
}

// What stands next in a block: a stretch of so many samples, a line with its end, or the rest of a block that ends within one.
#[derive(Clone, Copy)]
enum Piece {
    Samples(usize),
    Line,
    Part,
}

// And in how many bytes. The gatherer is the one after it, and of a line the one that holds it.
#[derive(Clone, Copy)]
struct Found {
    gatherer: Gatherer,
    used: usize,
    piece: Piece,
}

// A desk while a block is read: the powers of its samples lie in two arrays beside it, as at `Bare`, so that it is handed on without them.
#[derive(Clone, Copy)]
struct BareDesk {
    bare: Bare,
    stage: Stage,
}

impl BareDesk {
    // With the powers of its samples a desk again.
    fn whole(self, setpoints: &[i32; 900], actuals: &[i32; 900]) -> Desk
        ensures { result ≡ desk_with self setpoints.now actuals.now }
    {
        Desk {
            run: self.bare.whole(setpoints, actuals),
            stage: self.stage,
        }
    }
}

// The desk after a step, and how many bytes were printed.
#[derive(Clone, Copy)]
struct Stepped {
    desk: BareDesk,
    printed: usize,
}

// Gatherer and desk after some bytes of a block, and how many bytes were printed.
#[derive(Clone, Copy)]
struct Moved {
    gatherer: Gatherer,
    desk: BareDesk,
    used: usize,
    printed: usize,
}

// The line that a gatherer holds.
fn line_told(desk: Desk, gatherer: Gatherer, out: &mut [u8]) -> Told
    ensures { Tells out.old desk (line_turn desk gatherer.count (held_by gatherer)) result out.new }
{
    let bytes = gatherer.bytes();
    let kept = gatherer.length().min(bytes.len());
    desk.line(gatherer.count(), &bytes[..kept], out)
}

// On to the next line end, or to the end of the block.
fn line_at(gatherer: Gatherer, block: &[u8], at: usize) -> Found
    requires { at < length block.now }
    ensures { result ≡ line_found (gathered_of gatherer (drop at block.now)) }
{
    let part = gatherer.gather(&block[at..]);
    Found {
        gatherer: part.gatherer,
        used: part.used,
        piece: if part.complete {
            Piece::Line
        } else {
            Piece::Part
        },
    }
}

// How many samples more are taken before a quarter hour is full; none where no run is open.
fn room(desk: BareDesk) -> usize
    ensures { (sp ac : List ℤ) → result ≡ room_at desk.stage (whole_of desk.bare sp ac) }
{
    if desk.stage.is_open() {
        return desk.bare.room();
    }
    0
}

// As many samples as there are and the quarter hour takes, where a line starts, else a line. Their powers go straight to their places, after those that count.
fn next(
    gatherer: Gatherer,
    block: &[u8],
    at: usize,
    setpoints: &mut [i32; 900],
    actuals: &mut [i32; 900],
    filled: usize,
    room: usize,
) -> Found
    requires at_in_bounds { at < length block.now }
    requires room_bound { room ≤ 900 - filled }
    ensures { Finds gatherer block.now at filled room setpoints.old actuals.old setpoints.new actuals.new result }
{
    if !gatherer.at_start() {
        return line_at(gatherer, block, at);
    }
    let read = read_samples(block, at, setpoints, actuals, filled, filled + room);
    if read.samples == 0 {
        return line_at(gatherer, block, at);
    }
    Found {
        gatherer: gatherer.past(read.samples as u64),
        used: read.bytes,
        piece: Piece::Samples(read.samples),
    }
}

// Samples more, of which the powers are in their places.
fn counted(
    mut bare: Bare,
    count: usize,
    setpoints: &[i32; 900],
    actuals: &[i32; 900],
    out: &mut [u8],
) -> Stepped
    requires count_bound { bare.filled + count ≤ 900 }
    requires buffer_length_in_bounds { buffer_length ≤ length out.old }
    ensures { Steps out.old (quarter_turn (whole_of (with_more bare count) setpoints.now actuals.now)) result
        setpoints.now actuals.now out.new }
{
    bare.filled += count;
    let told = samples(bare, setpoints, actuals, out);
    Stepped {
        desk: BareDesk {
            bare: told.bare,
            stage: Stage::Open,
        },
        printed: told.printed.unwrap_or(0),
    }
}

// A line, for the whole desk. Not inlined: the room that it takes on the stack is that of a quarter hour again.
#[cold]
#[inline(never)]
fn served(
    desk: BareDesk,
    gatherer: Gatherer,
    setpoints: &mut [i32; 900],
    actuals: &mut [i32; 900],
    out: &mut [u8],
) -> Stepped
    requires { buffer_length ≤ length out.old }
    ensures { Steps out.old (line_turn (desk_with desk setpoints.old actuals.old) gatherer.count (held_by gatherer)) result
        setpoints.new actuals.new out.new }
{
    let told = line_told(desk.whole(setpoints, actuals), gatherer, out);
    Stepped {
        desk: BareDesk {
            bare: told.desk.run.apart(setpoints, actuals),
            stage: told.desk.stage,
        },
        printed: told.printed.unwrap_or(0),
    }
}

// What the desk makes of what was found.
fn told_of(
    desk: BareDesk,
    found: Found,
    setpoints: &mut [i32; 900],
    actuals: &mut [i32; 900],
    out: &mut [u8],
) -> Stepped
    requires samples_bound { (n : ℕ) → found.piece ≡ Samples n → desk.bare.filled + n ≤ 900 }
    requires buffer_length_in_bounds { buffer_length ≤ length out.old }
    ensures { Steps out.old (turn_by desk found setpoints.old actuals.old) result
        setpoints.new actuals.new out.new }
{
    match found.piece {
        Piece::Samples(n) => counted(desk.bare, n, setpoints, actuals, out),
        Piece::Line => served(desk, found.gatherer, setpoints, actuals, out),
        Piece::Part => Stepped { desk, printed: 0 },
    }
}

// The gatherer for what follows it.
fn after(found: Found) -> Gatherer
    ensures { result ≡ after_of found }
{
    match found.piece {
        Piece::Line => found.gatherer.fresh(),
        Piece::Samples(_) | Piece::Part => found.gatherer,
    }
}

// Whether a call goes on: nothing is printed yet, the desk is open, and the block has not ended.
fn goes_on(printed: usize, closed: bool, at: usize, end: usize) -> bool
    ensures { result ≡ goes_on printed closed at end }
{
    printed == 0 && !closed && at < end
}

// On until something is printed, the desk is closed, or the block ends. The desk stays in what came of the last step, and there is one way out: else it would
// be copied once more for each step.
fn read_on(
    first: Gatherer,
    opened: BareDesk,
    block: &[u8],
    setpoints: &mut [i32; 900],
    actuals: &mut [i32; 900],
    out: &mut [u8],
) -> Moved
    requires { buffer_length ≤ length out.old }
    ensures { Reads (reader_with first (desk_with opened setpoints.old actuals.old)) block.now out.old
        (left_of result setpoints.new actuals.new) out.new }
{
    let mut gatherer = first;
    let mut step = Stepped {
        desk: opened,
        printed: 0,
    };
    let mut i = 0;
    while goes_on(step.printed, step.desk.stage.is_closed(), i, block.len()) {
        let found = next(
            gatherer,
            block,
            i,
            setpoints,
            actuals,
            step.desk.bare.filled,
            room(step.desk),
        );
        step = told_of(step.desk, found, setpoints, actuals, out);
        gatherer = after(found);
        i += found.used;
    }
    Moved {
        gatherer,
        desk: step.desk,
        used: i,
        printed: step.printed,
    }
}

impl Reader {
    // Before the input.
    pub fn new() -> Reader
        ensures { result ≡ empty_reader }
    {
        Reader {
            gatherer: Gatherer::new(),
            desk: Desk::new(),
        }
    }

    // Whether the end or a refusal was printed: then nothing is read any more.
    pub fn is_closed(self) -> bool
        ensures { result ≡ closed_at self.desk.stage }
    {
        self.desk.is_closed()
    }

    // A block of the input, from its start on: up to the end of the first line for which something is printed, or to the end or the
    // refusal that closed the desk, or to its own end. What was not used is to be fed again.
    pub fn feed(self, block: &[u8], out: &mut [u8]) -> Fed
        ensures { Yields out.old self (feed_of self block.now) result out.new }
    {
        let mut reader = self;
        let (used, printed) = reader.take_in(block, out);
        Fed {
            reader,
            used,
            printed,
        }
    }

    // As `feed`, for a reader that is lent: how many bytes were used, and what was printed. A reader has 11 KB, which are not copied there and back.
    pub fn take_in(&mut self, block: &[u8], out: &mut [u8]) -> (usize, Result<usize, Refusal>)
        ensures { Yields out.old self.old (feed_of self.old block.now) (fed_with self.new result) out.new }
    {
        if out.len() < BUFFER {
            return (0, Err(Refusal::BufferTooShort));
        }
        let mut setpoints = [0i32; 900];
        let mut actuals = [0i32; 900];
        let opened = BareDesk {
            bare: self.desk.run.apart(&mut setpoints, &mut actuals),
            stage: self.desk.stage,
        };
        let moved = read_on(
            self.gatherer,
            opened,
            block,
            &mut setpoints,
            &mut actuals,
            out,
        );
        self.gatherer = moved.gatherer;
        self.desk = moved.desk.whole(&setpoints, &actuals);
        (moved.used, Ok(moved.printed))
    }

    // The input ended.
    pub fn finish(self, out: &mut [u8]) -> Fed
        ensures { Yields out.old self (finish_of self) result out.new }
    {
        if out.len() < BUFFER {
            return Fed {
                reader: self,
                used: 0,
                printed: Err(Refusal::BufferTooShort),
            };
        }
        let told = self.desk.finish(self.gatherer.count(), out);
        Fed {
            reader: Reader {
                desk: told.desk,
                ..self
            },
            used: 0,
            printed: told.printed,
        }
    }
}
