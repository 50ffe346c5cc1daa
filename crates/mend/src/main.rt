// The mending program: standard input to standard output. What is printed for a recording is `mended` of the crate mending; `stream` reads the
// blocks and writes out what the reader prints.
#![tactic(auto)]

ghost use Rattle.mending.specs.Mender.{line_room};
ghost use Rattle.mendfeed.specs.Reader.{closed_of};
ghost use Rattle.mendfeed.specs.Feeding.{Through};
ghost use Rattle.mendfeed.proofs.UsedLaws.{at_end, at_closed};

use mendfeed::Reader;
use stream::{Blocks, Part};
use vocabulary::refusal::Refusal;

// The buffer that the reader prints into: it is written out when no line more may fit, so the longer, the fewer writes.
const BUFFER: usize = 65536;

// The reader, as one of blocks. A type of its own around it: a trait of another crate is given to own types only.
#[derive(Clone, Copy)]
struct Mending(Reader);

impl Blocks for Mending {
    const NAME: &'static str = "mend";

    ghost stopped = { λ mending. closed_of mending.0.mender };

    ghost room = { line_room };

    ghost through = { λ mending bytes last. Through mending.0 bytes last.0 };

    fn stopped(&self) -> bool {
        self.0.is_closed()
    }

    fn read(&mut self, block: &[u8], out: &mut [u8]) -> Part {
        let fed = self.0.feed(block, out);
        self.0 = fed.reader;
        Part {
            used: fed.used,
            printed: fed.printed,
        }
    }

    fn finish(&mut self, out: &mut [u8]) -> Result<usize, Refusal> {
        let ended = self.0.finish(out);
        self.0 = ended.reader;
        ended.printed
    }

    ghost at_end = { λ mending. at_end mending.0 };

    ghost at_stop = { λ mending. at_closed mending.0 };
}

fn main(rt: HostRuntime) {
    let mut out = [0u8; BUFFER];
    Mending(Reader::new()).run(&rt, &mut rt.stdin(), &mut out);
}
