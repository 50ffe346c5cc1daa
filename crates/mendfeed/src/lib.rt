// Blocks of a recording for the mender, in constant memory, however it is cut. Most lines print something, so what they print is gathered in the lent buffer,
// and a call goes on as long as there is room for one line more.
#![tactic(auto)]

ghost use Rattle.std.specs.Prelude.{◌≡◌, ◌-◌, ◌<◌, ◌≤◌, true, false, length};
ghost use Rattle.lines.specs.Feed.{Start};
ghost use Rattle.lines.specs.Handing.{held_by};
ghost use Rattle.samples.specs.Scan.{Cut};
ghost use Rattle.mending.specs.Mender.{Turns, line_room, line_turn};
ghost use Rattle.mendfeed.specs.Reader.{empty_reader, feed_of, finish_of, Yields};
ghost use Rattle.mendfeed.specs.Steps.{Moves, Ready, Runnable, Rows, Runs, Tries, Steps, Reads};
ghost use Rattle.vocabulary.specs.Stage.{closed_at};

use lines::Gatherer;
use mending::mender::{Mender, Told};
use samples::complete;
use samples::recorded::recorded_at;
use vocabulary::refusal::Refusal;

// No line's text is longer: 60 missing samples, each with its mark, and the line's own sample.
pub const ROOM: usize = 4184;

// The line at hand, and the mender.
#[derive(Clone, Copy)]
pub struct Reader {
    gatherer: Gatherer,
    mender: Mender,
}

// What a call answers: the reader after it, how many bytes of the block it used, and what it printed. A call that is lent fewer than ROOM bytes does nothing,
// and says so. A type of its own beside feed's: this crate does not stand on that one.
#[derive(Clone, Copy)]
pub struct Fed {
    pub reader: Reader,
    pub used: usize,
    pub printed: Result<usize, Refusal>,
}

// The reader after some bytes of a block, and the place after what was printed.
#[derive(Clone, Copy)]
pub struct Moved {
    reader: Reader,
    used: usize,
    next: usize,
}

// Recorded samples that the mender took one after the other: what it holds then, how many there were, and the places after them and after what they printed.
#[derive(Clone, Copy)]
pub struct Ran {
    mender: Mender,
    rows: u64,
    to: usize,
    next: usize,
}

// The line that a gatherer holds. Buffer and place go side by side, as in the mender.
fn served(mender: Mender, gatherer: Gatherer, out: &mut [u8], at: usize) -> Told
    ensures { Turns out.old at (line_turn mender gatherer.count (held_by gatherer)) result out.new }
{
    let bytes = gatherer.bytes();
    let kept = gatherer.length().min(bytes.len());
    mender.line(gatherer.count(), &bytes[..kept], out, at)
}

// Whether lines are taken, and there is room for what one of them prints.
fn is_ready(mender: Mender, room: usize) -> bool
    ensures { result ≡ true → Ready mender room }
{
    ROOM <= room && mender.is_open()
}

// One recorded sample more, if one comes next among the complete lines and the mender is ready for it.
// The block and where its complete lines end go apart: what the rows come to is said of the whole block.
fn row_at(ran: Ran, count: u64, block: &[u8], end: usize, out: &mut [u8]) -> Option<Ran>
    requires cut { Cut block.now end }
    requires runnable { Runnable block.now ran out.old }
    requires to_lt_end { ran.to < end }
    ensures { Rows count block.now ran out.old result out.new }
{
    if !is_ready(ran.mender, out.len() - ran.next) {
        return None;
    }
    let line = recorded_at(&block[..end], ran.to)?;
    let rows = ran.rows + 1;
    let told = ran
        .mender
        .row(count.wrapping_add(rows), line.recorded, out, ran.next);
    Some(Ran {
        mender: told.mender,
        rows,
        to: line.to,
        next: told.next,
    })
}

// As many as there are. It runs for every line, so the line at hand stays out of it.
fn rows_at(ran: Ran, count: u64, block: &[u8], end: usize, out: &mut [u8]) -> Ran
    requires cut { Cut block.now end }
    requires runnable { Runnable block.now ran out.old }
    ensures { Runs count block.now ran out.old result out.new }
{
    let mut so = ran;
    while so.to < end {
        let Some(more) = row_at(so, count, block, end, out) else {
            return so;
        };
        so = more;
    }
    so
}

impl Reader {
    // Before the recording.
    pub fn new() -> Reader
        ensures { result ≡ empty_reader }
    {
        Reader {
            gatherer: Gatherer::new(),
            mender: Mender::new(),
        }
    }

    // Whether the end or a refusal was printed: then nothing is read any more.
    pub fn is_closed(self) -> bool
        ensures { result ≡ closed_at self.mender.stage }
    {
        self.mender.is_closed()
    }

    // On to the next line end, or to the end of the block.
    fn line_at(self, block: &[u8], at: usize, out: &mut [u8], from: usize) -> Moved
        requires { at < length block.now }
        ensures { Moves self block.now at out.old from result out.new }
    {
        let part = self.gatherer.gather(&block[at..]);
        if !part.complete {
            return Moved {
                reader: Reader {
                    gatherer: part.gatherer,
                    ..self
                },
                used: part.used,
                next: from,
            };
        }
        let told = served(self.mender, part.gatherer, out, from);
        Moved {
            reader: Reader {
                gatherer: part.gatherer.fresh(),
                mender: told.mender,
            },
            used: part.used,
            next: told.next,
        }
    }

    // As many recorded samples as there are, from the start of a line.
    fn stretch_at(
        self,
        block: &[u8],
        end: usize,
        at: usize,
        out: &mut [u8],
        from: usize,
    ) -> Option<Moved>
        requires cut { Cut block.now end }
        requires at_in_bounds { at < length block.now }
        requires from_in_bounds { from ≤ length out.old }
        requires start { Start self.gatherer }
        ensures { Tries self block.now at out.old from result out.new }
    {
        let ran = Ran {
            mender: self.mender,
            rows: 0,
            to: at,
            next: from,
        };
        let done = rows_at(ran, self.gatherer.count(), block, end, out);
        if done.rows == 0 {
            return None;
        }
        Some(Moved {
            reader: Reader {
                gatherer: self.gatherer.past(done.rows),
                mender: done.mender,
            },
            used: done.to - at,
            next: done.next,
        })
    }

    // Recorded samples where a line starts, else a line.
    fn step(self, block: &[u8], end: usize, at: usize, out: &mut [u8], from: usize) -> Moved
        requires cut { Cut block.now end }
        requires at_in_bounds { at < length block.now }
        requires stage_value { closed_at self.mender.stage ≡ false }
        requires line_room_in_bounds { line_room ≤ length out.old - from }
        ensures { Steps self block.now at out.old from result out.new }
    {
        if !self.gatherer.at_start() {
            return self.line_at(block, at, out, from);
        }
        match self.stretch_at(block, end, at, out, from) {
            Some(moved) => moved,
            None => self.line_at(block, at, out, from),
        }
    }

    // On until the room may be too short, the mender is closed, or the block ends.
    fn read_on(self, block: &[u8], out: &mut [u8]) -> Moved
        ensures { Reads self block.now out.old result out.new }
    {
        let end = complete(block);
        let mut reader = self;
        let mut i = 0;
        let mut next = 0;
        while i < block.len() && !reader.is_closed() && ROOM <= out.len() - next {
            let moved = reader.step(block, end, i, out, next);
            reader = moved.reader;
            i += moved.used;
            next = moved.next;
        }
        Moved {
            reader,
            used: i,
            next,
        }
    }

    // A block of the recording, from its start on, as far as there is room for what is printed. What was not used is to be fed again.
    pub fn feed(self, block: &[u8], out: &mut [u8]) -> Fed
        ensures { Yields out.old self (feed_of (length out.old) self block.now) result out.new }
    {
        if out.len() < ROOM {
            return Fed {
                reader: self,
                used: 0,
                printed: Err(Refusal::BufferTooShort),
            };
        }
        let moved = self.read_on(block, out);
        Fed {
            reader: moved.reader,
            used: moved.used,
            printed: Ok(moved.next),
        }
    }

    // The recording ended.
    pub fn finish(self, out: &mut [u8]) -> Fed
        ensures { Yields out.old self (finish_of self) result out.new }
    {
        if out.len() < ROOM {
            return Fed {
                reader: self,
                used: 0,
                printed: Err(Refusal::BufferTooShort),
            };
        }
        let told = self.mender.finish(self.gatherer.count(), out, 0);
        Fed {
            reader: Reader {
                mender: told.mender,
                ..self
            },
            used: 0,
            printed: Ok(told.next),
        }
    }
}
