// The settling program: standard input to standard output. What is printed for an input is `settled` of the crate meaning; here blocks are read, fed to
// the reader, and what it prints is written out.
#![tactic(auto)]

ghost use Rattle.std.specs.Prelude.{◌≡◌, ℕ, ◌+◌, ◌-◌, ◌≤◌, ◌<◌, length, take, drop};
ghost use Rattle.sheets.specs.Buffer.{buffer_length};
ghost use Rattle.feed.specs.Reader.{closed_of};
ghost use Rattle.feed.specs.Feeding.{Through};
ghost use Rattle.feed.proofs.UsedLaws.{at_end, at_closed};

use feed::Reader;
use samples::complete;
use sheets::BUFFER;
use std::io::Read;
use stream::{Blocks, Part};
use vocabulary::refusal::Refusal;

// So much is read at once: a larger block has more pages to be made, and a smaller one is read more often.
const BLOCK: usize = 65536;

// The reader, as one of blocks. A type of its own around it: a trait of another crate is given to own types only.
#[derive(Clone, Copy)]
struct Settling(Reader);

impl Blocks for Settling {
    const NAME: &'static str = "settle";

    ghost stopped = { λ settling. closed_of settling.0.desk };

    ghost room = { buffer_length };

    ghost through = { λ settling bytes last. Through settling.0 bytes last.0 };

    fn stopped(&self) -> bool {
        self.0.is_closed()
    }

    fn read(&mut self, block: &[u8], out: &mut [u8]) -> Part {
        let (used, printed) = self.0.take_in(block, out);
        Part { used, printed }
    }

    fn finish(&mut self, out: &mut [u8]) -> Result<usize, Refusal> {
        let ended = self.0.finish(out);
        self.0 = ended.reader;
        ended.printed
    }

    ghost at_end = { λ settling. at_end settling.0 };

    ghost at_stop = { λ settling. at_closed settling.0 };
}

// How much of what is at hand is fed: its whole lines, since a line that a call ends within costs about as much as a hundred others. All of it is, where no line
// ends there or the input has ended.
fn fed_length(block: &[u8], ended: bool) -> usize
    ensures { (result ≤ length block.now) × (0 < length block.now → 0 < result) }
{
    let lines = complete(block);
    if ended || lines == 0 {
        return block.len();
    }
    lines
}

// The bytes of a block that are not fed yet go to its front, so that what is read next follows them; so many they are.
fn left_over(block: &mut [u8], from: usize, to: usize) -> usize
    requires { (from ≤ to) × (to ≤ length block.old) }
    ensures { (result ≡ to - from) × (take result block.new ≡ take result (drop from block.old)) }
{
    block.copy_within(from..to, 0);
    to - from
}

// What is at hand, the first `all` bytes of a block: its whole lines are fed, and the rest is kept, so many bytes; none where what was printed could not be written.
// Block and `all` go apart: the bytes that are left move within the block.
fn turn(
    rt: &(impl Print + Eprint),
    reader: &mut Settling,
    block: &mut [u8],
    all: usize,
    ended: bool,
    out: &mut [u8],
) -> Option<usize>
    requires all_in_bounds { all ≤ length block.old }
    requires buffer_length_in_bounds { buffer_length ≤ length out.old }
    ensures fed { (left : ℕ) → result ≡ Some left → Through reader.old.0 (take (all - left) block.old) reader.new.0 }
    ensures kept { (left : ℕ) → result ≡ Some left → take left block.new ≡ take left (drop (all - left) block.old) }
    ensures fewer { (left : ℕ) → result ≡ Some left → (left ≤ all) × (0 < all → left < all) }
{
    let end = fed_length(&block[..all], ended);
    if !reader.fed(rt, &block[..end], out) {
        return None;
    }
    Some(left_over(block, end, all))
}

// Reads behind the bytes that are left; answers how many came, none where the input has ended. A read that fails ends it too.
fn read_on(input: &mut impl Read, block: &mut [u8], left: usize) -> usize
    requires { left ≤ length block.old }
    ensures { left + result ≤ length block.old }
{
    input.read(&mut block[left..]).unwrap_or(0)
}

// A proved loop has to end, and nothing says that an input does: it counts as far as no input goes.
// Not `run` of Blocks: the end of a block that is no whole line is kept for the next one.
fn main(rt: HostRuntime) {
    let mut input = rt.stdin();
    let mut reader = Settling(Reader::new());
    let mut block = [0u8; BLOCK];
    let mut out = [0u8; BUFFER];
    let mut left = 0;
    for _ in 0..u64::MAX {
        let n = read_on(&mut input, &mut block, left);
        let Some(kept) = turn(&rt, &mut reader, &mut block, left + n, n == 0, &mut out) else {
            return;
        };
        left = kept;
        if reader.stopped() {
            return;
        }
        if n == 0 {
            reader.ended(&rt, &mut out);
            return;
        }
    }
}
