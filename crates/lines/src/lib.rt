// Blocks of input bytes become lines, in constant memory, however the input is cut into blocks and whatever bytes it has.
#![tactic(auto)]

ghost use Rattle.std.specs.Prelude.{◌≡◌};
ghost use Rattle.lines.specs.Gathering.{start_at, empty_gatherer, fresh_of, past_of, Starts, gathered_of};

// Each line ends in one LF.
const LF: u8 = 10;
// A line has at most 80 bytes before its LF: with 81 kept it is known to be overlong, and its further bytes are of no use.
const KEPT: usize = 81;

// The line at hand, as far as it was read, and how many complete lines there are so far.
// Stays an array with a length beside it: there is no heap, and what a gatherer answers is said for any length.
#[derive(Clone, Copy)]
pub struct Gatherer {
    bytes: [u8; KEPT],
    length: usize,
    count: u64,
}

// What a block gave: if a line is complete, the gatherer holds it and counts it, and `used` bytes of the block were read,
// its LF the last of them. If not, the whole block was read.
// `complete` stays a flag: each caller needs `used` in either case.
#[derive(Clone, Copy)]
pub struct Gathered {
    pub gatherer: Gatherer,
    pub used: usize,
    pub complete: bool,
}

// At the start of a line, after so many complete ones: no byte of it is at hand.
fn blank(count: u64) -> Gatherer
    ensures { result ≡ start_at count }
{
    Gatherer {
        bytes: [0u8; KEPT],
        length: 0,
        count,
    }
}

impl Gatherer {
    pub fn new() -> Gatherer
        ensures { result ≡ empty_gatherer }
    {
        blank(0)
    }

    // After a complete line: ready for the next one, with nothing left of the last.
    pub fn fresh(self) -> Gatherer
        ensures { result ≡ fresh_of self }
    {
        blank(self.count)
    }

    // After n complete lines that another reader read: they are counted, and it is ready for the next one.
    pub fn past(self, n: u64) -> Gatherer
        ensures { result ≡ past_of n self }
    {
        blank(self.count.wrapping_add(n))
    }

    // Whether nothing of a line is at hand.
    pub fn at_start(self) -> bool
        ensures { Starts self result }
    {
        self.length == 0
    }

    // Reads on to the end of the line at hand, or of the block. It runs for every byte: one pass looks for the LF and keeps the
    // byte, on plain locals.
    pub fn gather(self, block: &[u8]) -> Gathered
        ensures { result ≡ gathered_of self block.now }
    {
        let Gatherer {
            mut bytes,
            mut length,
            count,
        } = self;
        for (i, byte) in block.iter().enumerate() {
            if *byte == LF {
                let gatherer = Gatherer {
                    bytes,
                    length,
                    count: count.wrapping_add(1),
                };
                return Gathered {
                    gatherer,
                    used: i + 1,
                    complete: true,
                };
            }
            let has_room = length < KEPT;
            if has_room {
                bytes[length] = *byte;
                length += 1;
            }
        }
        let gatherer = Gatherer {
            bytes,
            length,
            count,
        };
        Gathered {
            gatherer,
            used: block.len(),
            complete: false,
        }
    }

    // How many bytes of the line are kept: 81 if it is overlong.
    pub fn length(self) -> usize
        ensures { result ≡ self.length }
    {
        self.length
    }

    // The line's bytes, in the first `length` places. Bytes and length go apart: a slice of them could not outlive the gatherer, which is handed on.
    pub fn bytes(self) -> [u8; KEPT]
        ensures { result ≡ self.bytes }
    {
        self.bytes
    }

    // How many lines were completed so far, so the number of the line that is complete.
    pub fn count(self) -> u64
        ensures { result ≡ self.count }
    {
        self.count
    }
}
