// Programs that read an input block by block and print what a reader makes of it: what they have in common.
#![tactic(auto)]

ghost use Rattle.std.specs.Prelude.{◌≡◌, true, false, ℕ, ◌≤◌, ◌<◌, Bool, List, [], length, drop};

use std::io::Read;
use vocabulary::refusal::Refusal;

// So much is read at once, as in settle.
const BLOCK: usize = 65536;

// What a reader makes of a block: how many bytes of it were used, and how many were printed.
#[derive(Clone, Copy)]
pub struct Part {
    pub used: usize,
    pub printed: Result<usize, Refusal>,
}

// A reader of an input that comes in blocks, as a program has it.
pub trait Blocks {
    // The program's name, for what it says of itself.
    const NAME: &'static str;

    // whether nothing is read any more
    ghost stopped: { Self → Bool };

    // how long a buffer has to be lent, so that what a call prints finds room in it
    ghost room: { ℕ };

    // some bytes were read, in calls on blocks of any length, and this reader came of it
    ghost through: { Self → List ℕ → Self → Type 0 };

    fn stopped(&self) -> bool
        ensures { result ≡ stopped self.now };

    // A block, from its start on. What was not used is to be read again.
    fn read(&mut self, block: &[u8], out: &mut [u8]) -> Part
        requires { room ≤ length out.old }
        ensures within { result.used ≤ length block.now }
        ensures some { (n : ℕ) → result.printed ≡ Ok n → stopped self.old ≡ false → 0 < length block.now → 0 < result.used }
        ensures on { (last : Self) → through self.new (drop result.used block.now) last → through self.old block.now last }
        ensures prints { (n : ℕ) × (result.printed ≡ Ok n) × (n ≤ length out.new) };

    // The input ended.
    fn finish(&mut self, out: &mut [u8]) -> Result<usize, Refusal>
        requires { room ≤ length out.old }
        ensures prints { (n : ℕ) × (result ≡ Ok n) × (n ≤ length out.new) };

    ghost at_end: { (reader : Self) → through reader [] reader };

    ghost at_stop: { (reader : Self) (bytes : List ℕ) → stopped reader ≡ true → through reader bytes reader };

    // Writes out what a call printed into a buffer; where that fails, the program says so.
    // Whether, and no Result: why it failed is said here.
    final fn written(
        rt: &(impl Print + Eprint),
        printed: Result<usize, Refusal>,
        out: &[u8],
    ) -> bool
        requires { (n : ℕ) → printed ≡ Ok n → n ≤ length out.now }
        ensures { result ≡ true → (n : ℕ) × (printed ≡ Ok n) × (n ≤ length out.now) }
    {
        let Ok(n) = printed else {
            return false;
        };
        if rt.write_all(&out[..n]).is_ok() {
            return true;
        }
        let _ = eprint!(rt; "{}: the output could not be written\n", Self::NAME);
        false
    }

    // A block of input, read until it is used up or nothing is read any more; whether all that was printed for it could be written out.
    final fn fed(&mut self, rt: &(impl Print + Eprint), block: &[u8], out: &mut [u8]) -> bool
        requires { room ≤ length out.old }
        ensures { result ≡ true → through self.old block.now self.new }
    {
        let mut left = block;
        while !left.is_empty() && !self.stopped() {
            let part = self.read(left, out);
            left = &left[part.used..];
            if !Self::written(rt, part.printed, out) {
                return false;
            }
        }
        true
    }

    // The input's end; whether what was printed for it could be written out.
    final fn ended(&mut self, rt: &(impl Print + Eprint), out: &mut [u8]) -> bool
        requires { room ≤ length out.old }
    {
        let printed = self.finish(out);
        Self::written(rt, printed, out)
    }

    // The whole input, block by block. A read that fails ends it. A proved loop has to end, and nothing says that an input does: it counts as far as none goes.
    final fn run(&mut self, rt: &(impl Print + Eprint), input: &mut impl Read, out: &mut [u8])
        requires { room ≤ length out.old }
    {
        let mut block = [0u8; BLOCK];
        for _ in 0..u64::MAX {
            let n = if self.stopped() {
                0
            } else {
                input.read(&mut block).unwrap_or(0)
            };
            if n == 0 {
                self.ended(rt, out);
                return;
            }
            if !self.fed(rt, &block[..n], out) {
                return;
            }
        }
    }
}
