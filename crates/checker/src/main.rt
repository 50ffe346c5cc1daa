// The checking program: standard input to standard output. `stream` reads the blocks and writes the one line out.
#![tactic(auto)]

ghost use Rattle.checking.specs.Checker.{stopped_at};

use judging::kept::{Kept, Lists};
use sharefeed::Reader;
use stream::{Blocks, Part};
use vocabulary::refusal::Refusal;

// The directions of 100 quarter hours, each with 32 contracts at most.
const ROWS: usize = 200;

// A U line for each contract of each row.
const SHARES: usize = 6_400;

// The reader, and the lists that it is lent: it is lent them in each call anew, since a function that lends all three is not proved today.
#[derive(Clone, Copy)]
struct Checking {
    reader: Reader,
    gaps: [[u32; 32]; ROWS],
    surpluses: [u32; ROWS],
    shares: [i32; SHARES],
}

impl Blocks for Checking {
    const NAME: &'static str = "checker";

    ghost stopped = { λ checking. stopped_at checking.reader.checker.stage };

    ghost room = { 128 };

    // what the check says of an input is proved of the reader (crates/verdict); here nothing is said of it
    ghost through = { λ checking bytes last. Unit };

    fn stopped(&self) -> bool {
        self.reader.is_stopped()
    }

    // All of a block is used, and nothing is printed before the end.
    fn read(&mut self, block: &[u8], _out: &mut [u8]) -> Part {
        let mut kept = Kept {
            gaps: &mut self.gaps,
            surpluses: &mut self.surpluses,
            shares: &mut self.shares,
        };
        self.reader.feed(block, &mut kept);
        Part {
            used: block.len(),
            printed: Ok(0),
        }
    }

    fn finish(&mut self, out: &mut [u8]) -> Result<usize, Refusal> {
        let lists = Lists {
            gaps: &self.gaps,
            surpluses: &self.surpluses,
            shares: &self.shares,
        };
        self.reader.finish(lists, out)
    }

    ghost at_end = { λ checking. tt };

    ghost at_stop = { λ checking bytes stopped. tt };
}

fn main(rt: HostRuntime) {
    let mut out = [0u8; 128]; // room for its one line
    let mut checking = Checking {
        reader: Reader::new(),
        gaps: [[0u32; 32]; ROWS],
        surpluses: [0u32; ROWS],
        shares: [0i32; SHARES],
    };
    checking.run(&rt, &mut rt.stdin(), &mut out);
}
