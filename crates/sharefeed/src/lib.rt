// Blocks of an input for the checker of shares, in constant memory, however the input is cut. Nothing is printed before its end, so a call reads its whole block.
#![tactic(auto)]

ghost use Rattle.std.specs.Prelude.{◌≡◌};
ghost use Rattle.lines.specs.Handing.{held_by, handed};
ghost use Rattle.judging.specs.Kept.{kept_in, lists_in, SameLists};
ghost use Rattle.checking.specs.Checker.{standing, line_turn, stopped_at, Told, finish_text};
ghost use Rattle.sharefeed.specs.Reader.{empty_reader, progress, handled, feed_of, after_part};

use checking::checker::Checker;
use judging::kept::{Kept, Lists};
use lines::{Gathered, Gatherer};
use vocabulary::refusal::Refusal;

// The line at hand, and the checker.
#[derive(Clone, Copy)]
pub struct Reader {
    gatherer: Gatherer,
    checker: Checker,
}

// The checker takes a line by the bytes that are kept of it.
fn served(checker: &mut Checker, held: Gatherer, kept: &mut Kept)
    ensures same { SameLists kept.old kept.new }
    ensures is { line_turn (standing checker.old (kept_in kept.old)) held.count (held_by held)
        ≡ standing checker.new (kept_in kept.new) }
{
    let bytes = held.bytes();
    let end = held.length().min(bytes.len());
    checker.line(held.count(), &bytes[..end], kept);
}

impl Reader {
    // Before the input.
    pub fn new() -> Reader
        ensures { result ≡ empty_reader }
    {
        Reader {
            gatherer: Gatherer::new(),
            checker: Checker::new(),
        }
    }

    // Whether a line was refused: then nothing is read any more.
    pub fn is_stopped(self) -> bool
        ensures { result ≡ stopped_at self.checker.stage }
    {
        self.checker.is_stopped()
    }

    // A line is complete: the checker takes it.
    fn ended(&mut self, held: Gatherer, kept: &mut Kept)
        ensures same { SameLists kept.old kept.new }
        ensures is { handed handled (standing self.old.checker (kept_in kept.old)) held
            ≡ progress self.new (kept_in kept.new) }
    {
        served(&mut self.checker, held, kept);
        self.gatherer = held.fresh();
    }

    // After some bytes of a block, up to the next line end or to the end of the block.
    fn after(&mut self, part: Gathered, kept: &mut Kept)
        ensures same { SameLists kept.old kept.new }
        ensures is { after_part (standing self.old.checker (kept_in kept.old)) part
            ≡ progress self.new (kept_in kept.new) }
    {
        if part.complete {
            self.ended(part.gatherer, kept);
        } else {
            self.gatherer = part.gatherer;
        }
    }

    // A block of the input, all of it.
    pub fn feed(&mut self, block: &[u8], kept: &mut Kept)
        ensures same { SameLists kept.old kept.new }
        ensures is { feed_of (progress self.old (kept_in kept.old)) block.now
            ≡ progress self.new (kept_in kept.new) }
    {
        // no `for`, since it goes on by what a part used
        let mut i = 0;
        while i < block.len() {
            let part = self.gatherer.gather(&block[i..]);
            self.after(part, kept);
            i += part.used;
        }
    }

    // The input ended: what is printed.
    pub fn finish(self, lists: Lists, out: &mut [u8]) -> Result<usize, Refusal>
        ensures { Told out.old
            (finish_text (standing self.checker (lists_in lists.entry)) self.gatherer.count) result out.new }
    {
        self.checker.finish(self.gatherer.count(), lists, out)
    }
}
