// The desk takes the lines of an input one after the other, hands what they say to the run, and prints what there is to say.
ghost use Rattle.std.specs.Prelude.{◌≡◌};
ghost use Rattle.settlement.specs.Bare.{whole_of};
ghost use Rattle.reading.specs.Line.{line_of};
ghost use Rattle.text.specs.Desk.{Tells, desk_at, empty_desk, answer_of, refused_turn, open_turn, quarter_turn};
ghost use Rattle.text.specs.Desk.{end_turn, line_turn, finish_turn};
ghost use Rattle.text.specs.Serving.{Turned, told_by, early, late, misplaced_at, begun_turn, asked_of, followed_turn, served_turn, placed_turn, told_with, Settles};
ghost use Rattle.vocabulary.specs.Stage.{closed_at};

use reading::{Line, identifier, read};
use settlement::bare::Bare;
use settlement::run::{Answer, Run};
use sheets::{BUFFER, print_closing, print_head, print_quarter, print_refusal};
use vocabulary::header::Header;
use vocabulary::refusal::Refusal;
use vocabulary::stage::Stage;

// Empty before the header; open while the run is; closed after the end or a refusal, when nothing is read any more.
#[derive(Clone, Copy)]
pub struct Desk {
    pub run: Run,
    pub stage: Stage,
}

// What the desk answers to a line. Where the buffer is too short, the desk is the one that came in.
#[derive(Clone, Copy)]
pub struct Told {
    pub desk: Desk,
    pub printed: Result<usize, Refusal>,
}

// What it answers to samples, of which a reader has the powers. A type of its own beside Told: promises name each.
#[derive(Clone, Copy)]
pub struct BareTold {
    pub bare: Bare,
    pub printed: Result<usize, Refusal>,
}

// The turns below answer the desk after printing; where the buffer was too short, the one that came in is put back here.
fn kept(before: Desk, told: Told) -> Told
    ensures { result ≡ answer_of before told.desk told.printed }
{
    match told.printed {
        Ok(_) => told,
        Err(_) => Told {
            desk: before,
            ..told
        },
    }
}

// After samples: the quarter hour is taken once no room is left in it. A run that waits for none is left as it is. Two arrays, as at `Bare`.
fn take_full(bare: Bare, setpoints: &[i32; 900], actuals: &[i32; 900], out: &mut [u8]) -> BareTold
    ensures { Turned out.old (quarter_turn (whole_of bare setpoints.now actuals.now))
        (told_with result setpoints.now actuals.now) out.new }
{
    if bare.room() != 0 {
        return BareTold {
            bare,
            printed: Ok(0),
        };
    }
    let taken = bare.take(setpoints, actuals);
    if taken.refusal.is_err() {
        return BareTold {
            bare,
            printed: Ok(0),
        };
    }
    BareTold {
        bare: taken.bare,
        printed: print_quarter(out, taken.quarter, taken.sheets),
    }
}

// Samples for an open desk, which a reader has counted: their powers are in their places, in range, and no more than there is room for. With a buffer of fewer
// than BUFFER bytes nothing is done.
pub fn samples(bare: Bare, setpoints: &[i32; 900], actuals: &[i32; 900], out: &mut [u8]) -> BareTold
    ensures { Settles out.old bare setpoints.now actuals.now result out.new }
{
    if out.len() < BUFFER {
        return BareTold {
            bare,
            printed: Err(Refusal::BufferTooShort),
        };
    }
    take_full(bare, setpoints, actuals, out)
}

// Before the header any other line comes too early. Not one with the checker's: there a share is a line too.
fn too_early(said: Line) -> Result<(), Refusal>
    ensures { result ≡ early said }
{
    match said {
        Line::Header(_) => Ok(()),
        Line::Malformed => Err(Refusal::BadLine),
        _ => Err(Refusal::WrongMoment),
    }
}

// After it a second one comes too late.
fn too_late(said: Line) -> Result<(), Refusal>
    ensures { result ≡ late said }
{
    match said {
        Line::Header(_) => Err(Refusal::WrongMoment),
        Line::Malformed => Err(Refusal::BadLine),
        _ => Ok(()),
    }
}

// What the run answers to a line that comes in its place. A header, the end and a malformed line ask nothing of it here.
fn asked(run: Run, said: Line, line: &[u8]) -> Answer
    ensures { result ≡ asked_of run line.now said }
{
    match said {
        Line::Header(_) | Line::End => Answer {
            run,
            refusal: Ok(()),
        },
        Line::Bounds(bounds) => run.bounds(bounds),
        Line::Setpoint(setpoint) => run.setpoint(setpoint),
        Line::Contract(contract) => run.contract(contract, identifier(line)),
        Line::Sample(sample) => run.sample(sample),
        Line::Malformed => Answer {
            run,
            refusal: Err(Refusal::BadLine),
        },
    }
}

// What is wrong with a line before the run is asked.
fn misplaced(stage: Stage, said: Line) -> Result<(), Refusal>
    ensures { result ≡ misplaced_at stage said }
{
    match stage {
        Stage::Empty => too_early(said),
        Stage::Open => too_late(said),
        Stage::Closed => Ok(()),
    }
}

impl Desk {
    // Nothing was read yet.
    pub fn new() -> Desk
        ensures { result ≡ empty_desk }
    {
        Desk {
            run: Run::unopened(),
            stage: Stage::Empty,
        }
    }

    // Nothing is printed.
    fn silent(self) -> Told
        ensures { result ≡ told_by self (Ok 0) }
    {
        Told {
            desk: self,
            printed: Ok(0),
        }
    }

    // A refusal: its line is printed, and the desk is closed. Each turn prints its own refusal, as its definition has it.
    fn refused(self, number: u64, refusal: Refusal, out: &mut [u8]) -> Told
        ensures { Turned out.old (refused_turn self number (Err refusal)) result out.new }
    {
        let printed = print_refusal(out, number, Err(refusal));
        Told {
            desk: Desk {
                stage: Stage::Closed,
                ..self
            },
            printed,
        }
    }

    // The run is open, and the sheet's head is printed.
    fn begun(run: Run, out: &mut [u8]) -> Told
        ensures { Turned out.old (begun_turn run) result out.new }
    {
        let heading = run.heading();
        let printed = print_head(out, heading.date, heading.interval, heading.lot);
        Told {
            desk: Desk {
                run,
                stage: Stage::Open,
            },
            printed,
        }
    }

    fn open(self, number: u64, header: Header, out: &mut [u8]) -> Told
        ensures { Turned out.old (open_turn self number header) result out.new }
    {
        match Run::open(header) {
            Ok(run) => Desk::begun(run, out),
            Err(refusal) => self.refused(number, refusal, out),
        }
    }

    // After a sample.
    fn quarter(run: Run, out: &mut [u8]) -> Told
        ensures { Turned out.old (quarter_turn run) result out.new }
    {
        let mut setpoints = [0i32; 900];
        let mut actuals = [0i32; 900];
        let bare = run.apart(&mut setpoints, &mut actuals);
        let told = take_full(bare, &setpoints, &actuals, out);
        Told {
            desk: Desk {
                run: told.bare.whole(&setpoints, &actuals),
                stage: Stage::Open,
            },
            printed: told.printed,
        }
    }

    fn end(self, number: u64, out: &mut [u8]) -> Told
        ensures { Turned out.old (end_turn self number) result out.new }
    {
        let ended = self.run.end();
        if let Err(refusal) = ended.refusal {
            return self.refused(number, refusal, out);
        }
        let printed = print_closing(out, ended.quarters, ended.fees, ended.penalties, ended.past);
        Told {
            desk: Desk {
                run: ended.run,
                stage: Stage::Closed,
            },
            printed,
        }
    }

    // What there is to do and to print once the run has accepted a line.
    fn followed(self, number: u64, said: Line, out: &mut [u8]) -> Told
        ensures { Turned out.old (followed_turn self number said) result out.new }
    {
        match said {
            Line::Header(header) => self.open(number, header, out),
            Line::Sample(_) => Desk::quarter(self.run, out),
            Line::End => self.end(number, out),
            Line::Bounds(_) | Line::Setpoint(_) | Line::Contract(_) | Line::Malformed =>
                self.silent(),
        }
    }

    // A line that comes in its place.
    fn served(self, number: u64, said: Line, line: &[u8], out: &mut [u8]) -> Told
        ensures { Turned out.old (served_turn self number line.now said) result out.new }
    {
        let answer = asked(self.run, said, line);
        if let Err(refusal) = answer.refusal {
            return self.refused(number, refusal, out);
        }
        let desk = Desk {
            run: answer.run,
            stage: Stage::Open,
        };
        desk.followed(number, said, out)
    }

    // A line while the desk reads.
    fn turn(self, number: u64, line: &[u8], out: &mut [u8]) -> Told
        ensures { Turned out.old (placed_turn self number line.now (line_of line.now)) result out.new }
    {
        let said = read(line);
        if let Err(refusal) = misplaced(self.stage, said) {
            return self.refused(number, refusal, out);
        }
        self.served(number, said, line, out)
    }

    // Whether the end or a refusal was printed: then nothing is read any more.
    pub fn is_closed(self) -> bool
        ensures { result ≡ closed_at self.stage }
    {
        self.stage.is_closed()
    }

    // One complete line of the input, without its LF; lines count from 1. A long buffer is never too short, so that no desk is kept beside it to be put back.
    pub fn line(self, number: u64, line: &[u8], out: &mut [u8]) -> Told
        ensures { Tells out.old self (line_turn self number line.now) result out.new }
    {
        if self.is_closed() {
            return self.silent();
        }
        if out.len() < BUFFER {
            return kept(self, self.turn(number, line, out));
        }
        self.turn(number, line, out)
    }

    // The input ended, after so many complete lines.
    pub fn finish(self, count: u64, out: &mut [u8]) -> Told
        ensures { Tells out.old self (finish_turn self count) result out.new }
    {
        if self.is_closed() {
            return self.silent();
        }
        let number = count.wrapping_add(1);
        kept(self, self.refused(number, Refusal::NoEnd, out))
    }
}
