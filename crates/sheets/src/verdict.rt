// What a checker of shares says at the end, in one line.
ghost use Rattle.std.specs.Prelude.{◌≤◌, ◌≡◌, length};
ghost use Rattle.sheets.specs.Verdict.{accepted_text, failing_text, verdict_text};
ghost use Rattle.sheets.specs.Buffer.{print_answer, print_into};
ghost use Rattle.sheets.specs.Putting.{WroteUpTo};

use crate::{put_start, refused_or_written};
use print::{put, put_field, put_line_end};
use vocabulary::direction::Direction;
use vocabulary::refusal::Refusal;

// Accepted, with the number of quarter hours; or the first quarter hour and direction that does not hold.
// No Result: a failing share is an answer, not a refusal.
#[derive(Clone, Copy)]
pub enum Verdict {
    Accepted(u8),
    Failing { quarter: u8, direction: Direction },
}

fn put_accepted(buf: &mut [u8], at: usize, quarters: u8) -> usize
    ensures { WroteUpTo 23 buf.old at (accepted_text quarters) result buf.new }
{
    let count = put(buf, at, b'A');
    let end = put_field(buf, count, u64::from(quarters));
    put_line_end(buf, end)
}

fn put_failing(buf: &mut [u8], at: usize, quarter: u8, direction: Direction) -> usize
    ensures { WroteUpTo 25 buf.old at (failing_text quarter direction) result buf.new }
{
    let end = put_start(buf, at, b'F', quarter, direction);
    put_line_end(buf, end)
}

fn put_verdict(buf: &mut [u8], at: usize, verdict: Verdict) -> usize
    ensures { WroteUpTo 25 buf.old at (verdict_text verdict) result buf.new }
{
    match verdict {
        Verdict::Accepted(quarters) => put_accepted(buf, at, quarters),
        Verdict::Failing { quarter, direction } => put_failing(buf, at, quarter, direction),
    }
}

// The A or the F line.
pub fn print_verdict(buf: &mut [u8], verdict: Verdict) -> Result<usize, Refusal>
    ensures answer { result ≡ print_answer buf.old (verdict_text verdict) }
    ensures bytes { buf.new ≡ print_into buf.old (verdict_text verdict) }
    ensures room { length (verdict_text verdict) ≤ 128 }
{
    refused_or_written(buf, |to| put_verdict(to, 0, verdict))
}
