// The checker takes the lines of an input one after the other, as the desk of the settling program does, and then its U lines. It prints one line, at the end.
ghost use Rattle.std.specs.Prelude.{◌≡◌, ℕ, ◌^◌, ◌<◌, IfOk};
ghost use Rattle.reading.specs.Share.{asked_of};
ghost use Rattle.judging.specs.Kept.{kept_in, lists_in, SameLists};
ghost use Rattle.checking.specs.Checker.{checker_at, standing, unless, empty_checker, quarter_turn, first_by, next_turn, later_turn, turn_at, line_turn};
ghost use Rattle.checking.specs.Checker.{stopped_at, Told, ruled_text, finish_text};
ghost use Rattle.checking.specs.Answers.{followed, late_share, ending_of};

use crate::answers::{answer_to, opens, out_of_place};
use judging::judged::judged;
use judging::kept::{Kept, Lists};
use judging::wanted::{share_refusal, wanted};
use reading::Line;
use reading::share::{Asked, read_asked, whose};
use settlement::run::Run;
use sheets::print_refusal;
use sheets::verdict::print_verdict;
use vocabulary::refusal::Refusal;

// A line that was refused, and why.
#[derive(Clone, Copy)]
pub struct Fault {
    line: u64,
    refusal: Refusal,
}

// Before the header; while the run is open; after E, with the number of U lines so far; after a refusal, when nothing is read any more.
// A stage of its own: after E it counts U lines, and a refusal is kept for the end.
#[derive(Clone, Copy)]
pub enum Stage {
    Empty,
    Open,
    Ended(usize),
    Stopped(Fault),
}

#[derive(Clone, Copy)]
pub struct Checker {
    run: Run,
    stage: Stage,
}

// At the input's end: the verdict after so many U lines, or a refusal.
fn end_at(stage: Stage, number: u64) -> Result<usize, Fault>
    ensures { result ≡ ending_of stage number }
{
    match stage {
        Stage::Empty | Stage::Open => Err(Fault {
            line: number,
            refusal: Refusal::NoEnd,
        }),
        Stage::Ended(given) => Ok(given),
        Stage::Stopped(fault) => Err(fault),
    }
}

// The share that a line says after E, where so many U lines came before it, or why the line is refused: any other comes too late.
fn late_share(run: Run, given: usize, line: &[u8]) -> Result<i32, Refusal>
    ensures is { result ≡ late_share run given line.now (asked_of line.now) }
    ensures few { IfOk result (λ kwh. given < 2 ^ 32) }
{
    match read_asked(line) {
        Asked::Settling(said) => Err(out_of_place(said)),
        Asked::Share(share) => {
            share_refusal(run.books(), run.end().quarters, given, share, whose(line))?;
            Ok(share.kwh)
        }
    }
}

// After a sample: the quarter hour is taken if it is full.
fn taking(run: Run, kept: &mut Kept) -> Run
    ensures same { SameLists kept.old kept.new }
    ensures is { quarter_turn (kept_in kept.old) run ≡ standing (checker_at Stage.Open result) (kept_in kept.new) }
{
    let taken = run.take();
    kept.keep(taken.refusal, taken.quarter, taken.sheets);
    taken.run
}

// What follows a line that the run took: the quarter hour may be full, or the run has ended.
fn following(run: Run, asked: Asked, kept: &mut Kept) -> Checker
    ensures same { SameLists kept.old kept.new }
    ensures is { followed (kept_in kept.old) run asked ≡ standing result (kept_in kept.new) }
{
    match asked {
        Asked::Settling(Line::Sample(_)) => Checker::at(taking(run, kept), Stage::Open),
        Asked::Settling(Line::End) => Checker::at(run, Stage::Ended(0)),
        _ => Checker::at(run, Stage::Open),
    }
}

// The calls of a line answer why it is refused, and leave the checker as it was then.
impl Checker {
    fn at(run: Run, stage: Stage) -> Checker
        ensures { result ≡ checker_at stage run }
    {
        Checker { run, stage }
    }

    // Nothing was read yet.
    pub fn new() -> Checker
        ensures { result ≡ empty_checker }
    {
        Checker::at(Run::unopened(), Stage::Empty)
    }

    // A line before the header.
    fn first(&mut self, line: &[u8]) -> Result<(), Refusal>
        ensures { (number : ℕ) → first_by self.old.run number (asked_of line.now) ≡ unless self.new.run number result self.new }
    {
        let header = opens(line)?;
        let run = Run::open(header)?;
        *self = Checker::at(run, Stage::Open);
        Ok(())
    }

    // A line while the run is open.
    fn next(&mut self, line: &[u8], kept: &mut Kept) -> Result<(), Refusal>
        ensures same { SameLists kept.old kept.new }
        ensures is { (number : ℕ) → next_turn (kept_in kept.old) self.old.run number line.now (asked_of line.now)
            ≡ standing (unless self.new.run number result self.new) (kept_in kept.new) }
    {
        let asked = read_asked(line);
        let answer = answer_to(self.run, asked, line);
        answer.refusal?;
        *self = following(answer.run, asked, kept);
        Ok(())
    }

    // A line after E: a share that is not refused is kept.
    fn later(&mut self, given: usize, line: &[u8], kept: &mut Kept) -> Result<(), Refusal>
        ensures same { SameLists kept.old kept.new }
        ensures is { (number : ℕ) → later_turn (kept_in kept.old) self.old.run number line.now given (asked_of line.now)
            ≡ standing (unless self.new.run number result self.new) (kept_in kept.new) }
    {
        let kwh = late_share(self.run, given, line)?;
        kept.put_share(given, kwh);
        self.stage = Stage::Ended(given + 1);
        Ok(())
    }

    // After a refusal nothing is read.
    fn turn(&mut self, line: &[u8], kept: &mut Kept) -> Result<(), Refusal>
        ensures same { SameLists kept.old kept.new }
        ensures is { (number : ℕ) → turn_at self.old.stage (standing self.old (kept_in kept.old)) number line.now
            ≡ standing (unless self.new.run number result self.new) (kept_in kept.new) }
    {
        match self.stage {
            Stage::Empty => self.first(line),
            Stage::Open => self.next(line, kept),
            Stage::Ended(given) => self.later(given, line, kept),
            Stage::Stopped(_) => Ok(()),
        }
    }

    // One complete line of the input, without its LF; lines count from 1.
    pub fn line(&mut self, number: u64, line: &[u8], kept: &mut Kept)
        ensures same { SameLists kept.old kept.new }
        ensures is { line_turn (standing self.old (kept_in kept.old)) number line.now ≡ standing self.new (kept_in kept.new) }
    {
        if let Err(refusal) = self.turn(line, kept) {
            self.stage = Stage::Stopped(Fault {
                line: number,
                refusal,
            });
        }
    }

    // Whether a line was refused: then nothing is read any more.
    pub fn is_stopped(self) -> bool
        ensures { result ≡ stopped_at self.stage }
    {
        matches!(self.stage, Stage::Stopped(_))
    }

    // After E, where so many U lines came: is one missing, or what is the verdict?
    fn ruled(
        self,
        number: u64,
        given: usize,
        lists: Lists,
        out: &mut [u8],
    ) -> Result<usize, Refusal>
        ensures { Told out.old (ruled_text self.run (lists_in lists.entry) number given) result out.new }
    {
        let books = self.run.books();
        let quarters = self.run.end().quarters;
        if wanted(books, quarters) != given {
            return print_refusal(out, number, Err(Refusal::MisplacedShare));
        }
        print_verdict(out, judged(books, quarters, lists))
    }

    // The input ended, after so many complete lines: what is printed.
    pub fn finish(self, count: u64, lists: Lists, out: &mut [u8]) -> Result<usize, Refusal>
        ensures { Told out.old (finish_text (standing self (lists_in lists.entry)) count) result out.new }
    {
        let number = count.wrapping_add(1);
        match end_at(self.stage, number) {
            Ok(given) => self.ruled(number, given, lists, out),
            Err(fault) => print_refusal(out, fault.line, Err(fault.refusal)),
        }
    }
}
