// Library calls in any order and with any numbers: each line of a script on standard input is one call on the one run at hand, and what it answered
// is written, so that another program can be compared. The lines of a script, with | for the tab:
//   O|year|month|day|interval|lot|quarters        opens a run; what that gives, refused or not, takes the place of the run at hand
//   A|OGA|UGA                                     the bounds that a block begins with, in units
//   B|times|setpoint                              the same past setpoint of the block so often
//   C|P or N|award|price|identifier               a contract
//   S|times|setpoint|actual                       the same sample so often
//   K                                             takes the quarter hour
//   E                                             ends
//   H                                             asks for the heading and the contract lists
//   V|B or T|bytes|year|month|day|interval|lot    prints a head
//   Q|B or T|bytes|quarter                        prints the sheets of the last taking
//   T|B or T|bytes|quarters|fees|penalties        prints a total
//   P|B or T|bytes                                prints the block that the run hands on
//   R|B or T|bytes|line|refusal                   prints a refusal
// A printing call is lent so many bytes (B), or so many more or fewer than its text has (T). A run that can't be ended yet hands on no block: P is
// refused as the end is, whatever is lent, and its text has no byte. An answer is a line with the number of the script's line, that of the refusal (0
// where there is none) and a count: the past setpoints or samples accepted, the contracts in each direction, the length of what was printed. After it
// stand, whether refused or not, the sheets, the total, the head, and the whole buffer that was lent.
#![tactic(auto)]

mod answer; // what is written
mod script; // what the fields of a line say

ghost use Rattle.std.specs.Prelude.{◌≡◌, ◌≤◌, length};

use arithmetic::money::Cents;
use arithmetic::power::Units;
use quarter::sheet::{Sheets, no_sheets};
use settlement::run::{Answer, Run, Taken};
use sheets::{BUFFER, print_block, print_head, print_quarter, print_refusal, print_total};
use std::io::Read;
use vocabulary::acceptance::Bounds;
use vocabulary::contract::Contract;
use vocabulary::direction::Direction;
use vocabulary::header::{Header, Lot};
use vocabulary::refusal::Refusal;
use vocabulary::sample::Sample;

fn header_of(line: &[u8]) -> Header {
    Header {
        date: script::date(line, 1),
        interval: script::integer(line, 4),
        lot: Lot::Kw(script::integer(line, 5)),
        quarters: script::integer(line, 6),
    }
}

// A refused opening gives no run: what stands in its place refuses every call.
fn open(rt: &impl Print, at: u64, line: &[u8]) -> Run {
    match Run::open(header_of(line)) {
        Ok(run) => {
            answer::answered(rt, at, Ok(()));
            run
        }
        Err(refusal) => {
            answer::answered(rt, at, Err(refusal));
            Run::unopened()
        }
    }
}

fn bounds_of(line: &[u8]) -> Bounds {
    Bounds {
        oga: Units(script::number(line, 1)),
        uga: Units(script::number(line, 2)),
    }
}

fn contract_of(line: &[u8]) -> Contract {
    Contract {
        direction: script::direction(line, 1),
        award: script::integer(line, 2),
        price: script::integer(line, 3),
    }
}

fn sample_of(line: &[u8]) -> Sample {
    Sample {
        setpoint: script::integer(line, 2),
        actual: script::integer(line, 3),
    }
}

// What a line gives to the run: the bounds of a block, a past setpoint, a contract or a sample.
fn given(run: Run, line: &[u8]) -> Answer {
    match script::letter(line, 0) {
        b'A' => run.bounds(bounds_of(line)),
        b'B' => run.setpoint(script::integer(line, 2)),
        b'C' => run.contract(contract_of(line), script::field(line, 4)),
        _ => run.sample(sample_of(line)),
    }
}

fn once(rt: &impl Print, run: Run, at: u64, line: &[u8]) -> Run {
    let answer = given(run, line);
    answer::answered(rt, at, answer.refusal);
    answer.run
}

// The same so often: what the last answered is told, and how many were accepted.
fn repeated(rt: &impl Print, run: Run, at: u64, line: &[u8]) -> Run {
    let mut last = Answer {
        run,
        refusal: Ok(()),
    };
    let mut accepted: u64 = 0;
    for _ in 0..script::count(line, 1, 65_535) {
        last = given(last.run, line);
        accepted = accepted.wrapping_add(u64::from(last.refusal.is_ok()));
    }
    answer::counted(rt, at, last.refusal, accepted);
    last.run
}

fn end(rt: &impl Print, run: Run, at: u64) -> Run {
    let ended = run.end();
    answer::answered(rt, at, ended.refusal);
    let mut out = [b'.'; BUFFER];
    let printed = print_total(&mut out, ended.quarters, ended.fees, ended.penalties);
    answer::showed(rt, printed, &out);
    ended.run
}

fn contracts_in(run: Run, direction: Direction) -> u64 {
    run.books().book(direction).count() as u64
}

// The head is printed before the contracts are counted, and shown after them: so the run is used late, which is checked sooner.
fn heading(rt: &impl Print, run: Run, at: u64) {
    let heading = run.heading();
    let mut out = [b'.'; BUFFER];
    let printed = print_head(&mut out, heading.date, heading.interval, heading.lot);
    let above = contracts_in(run, Direction::Positive);
    answer::counted_both(rt, at, above, contracts_in(run, Direction::Negative));
    answer::showed(rt, printed, &out);
}

// What the taking of a quarter hour answered.
fn show_taken(rt: &impl Print, at: u64, taken: Taken) {
    answer::answered(rt, at, taken.refusal);
    let mut out = [b'.'; BUFFER];
    let printed = print_quarter(&mut out, taken.quarter, taken.sheets);
    answer::showed(rt, printed, &out);
}

// The printing calls whose numbers all stand in the line.
fn printed_numbers(line: &[u8], out: &mut [u8]) -> Result<usize, Refusal> {
    match script::letter(line, 0) {
        b'V' => print_head(
            out,
            script::date(line, 3),
            script::interval(line, 6),
            script::count(line, 7, 4_294_967_295) as u32,
        ),
        b'T' => print_total(
            out,
            script::byte(line, 3),
            Cents(script::number(line, 4)),
            Cents(script::number(line, 5)),
        ),
        _ => print_refusal(
            out,
            script::count(line, 3, u64::MAX),
            script::refusal(line, 4),
        ),
    }
}

// A printing call, and the whole buffer that it was lent. The length of the text may decide how much that is, and is asked where there is room.
fn print_lent<F: Fn(&mut [u8]) -> Result<usize, Refusal>>(
    rt: &impl Print,
    at: u64,
    line: &[u8],
    print: F,
)
    requires { F.IsAlwaysCallable print }
{
    let mut whole = [b'.'; BUFFER];
    let text = print(&mut whole).unwrap_or(0);
    let n = script::lent(line, text);
    let mut buf = [b'.'; BUFFER];
    let lent = &mut buf[..n];
    let told = print(lent);
    answer::showed_whole(rt, at, told, lent);
}

// A printing call that is refused for another reason than its buffer, which stays as it is.
fn not_printed(rt: &impl Print, at: u64, refusal: Refusal, line: &[u8]) {
    answer::answered(rt, at, Err(refusal));
    let n = script::lent(line, 0);
    answer::buffer(rt, &[b'.'; BUFFER][..n]);
}

// The sheets of the last taking.
fn print_sheets(rt: &impl Print, sheets: Sheets, at: u64, line: &[u8]) {
    let quarter = script::byte(line, 3);
    print_lent(rt, at, line, |out| print_quarter(out, quarter, sheets));
}

// The block that a run hands on, once it can be ended; before that no byte is printed.
fn block(rt: &impl Print, run: Run, at: u64, line: &[u8]) {
    let ended = run.end();
    match ended.refusal {
        Ok(()) => print_lent(rt, at, line, |out| print_block(out, ended.past)),
        Err(refusal) => not_printed(rt, at, refusal, line),
    }
}

// The call of a line, which is the `at`-th of the script. What is held from call to call is what the last taking answered, with the run at hand in it;
// after an opening nothing was taken.
fn called(rt: &impl Print, mut held: Taken, at: u64, line: &[u8]) -> Taken {
    match script::letter(line, 0) {
        b'O' => {
            held.run = open(rt, at, line);
            held.sheets = no_sheets();
        }
        b'A' | b'C' => held.run = once(rt, held.run, at, line),
        b'B' | b'S' => held.run = repeated(rt, held.run, at, line),
        b'K' => {
            held = held.run.take();
            show_taken(rt, at, held);
        }
        b'E' => held.run = end(rt, held.run, at),
        b'H' => heading(rt, held.run, at),
        b'P' => block(rt, held.run, at, line),
        b'Q' => print_sheets(rt, held.sheets, at, line),
        _ => print_lent(rt, at, line, |out| printed_numbers(line, out)),
    }
    held
}

// Where the line that begins at `from` ends.
fn line_end(script: &[u8], from: usize) -> usize
    requires { from ≤ length script.now }
    ensures after { from ≤ result }
    ensures within { result ≤ length script.now }
{
    match script[from..].iter().position(|byte| *byte == b'\n') {
        Some(n) => from + n,
        None => script.len(),
    }
}

// Before the first opening there is no run, and its taking has nothing in it.
// no `split`: what stands after the last line end is no line
fn play(rt: &impl Print, script: &[u8]) {
    let mut held = Run::unopened().take();
    let mut at: u64 = 0;
    let mut from = 0;
    while from < script.len() {
        let to = line_end(script, from);
        at = at.wrapping_add(1);
        held = called(rt, held, at, &script[from..to]);
        from = to + 1;
    }
}

// Reads until the block is full or the input has ended; answers how many bytes came. A read that fails ends it too.
// no `read_exact`: it does not say how many bytes came
fn read_full(input: &mut impl Read, block: &mut [u8]) -> usize
    ensures { result ≤ length block.new }
{
    let mut done = 0;
    while done < block.len() {
        let n = input.read(&mut block[done..]).unwrap_or(0);
        if n == 0 {
            return done;
        }
        done += n;
    }
    done
}

// A script has 65,536 bytes at most.
fn main(rt: HostRuntime) {
    let mut input = rt.stdin();
    let mut script = [0u8; 65_536];
    let n = read_full(&mut input, &mut script);
    play(&rt, &script[..n]);
}
