// What the run answers to a line, and which line opens one.
ghost use Rattle.std.specs.Prelude.{◌≡◌};
ghost use Rattle.reading.specs.Share.{asked_of};
ghost use Rattle.checking.specs.Checker.{late_ground};
ghost use Rattle.checking.specs.Answers.{opening_line, opening_of, line_answer, answer_to};

use judging::wanted::early_refusal;
use reading::share::{Asked, read_asked, whose};
use reading::{Line, identifier};
use settlement::run::{Answer, Run};
use vocabulary::header::Header;
use vocabulary::refusal::Refusal;

// Where a line of an input that is settled has no place, it comes at the wrong moment.
pub(crate) fn out_of_place(said: Line) -> Refusal
    ensures { result ≡ late_ground said }
{
    match said {
        Line::Malformed => Refusal::BadLine,
        _ => Refusal::WrongMoment,
    }
}

fn opening_line(said: Line) -> Result<Header, Refusal>
    ensures { result ≡ opening_line said }
{
    match said {
        Line::Header(header) => Ok(header),
        _ => Err(out_of_place(said)),
    }
}

// Before the header any other line comes too early, and a share is one like any other there.
pub(crate) fn opens(line: &[u8]) -> Result<Header, Refusal>
    ensures { result ≡ opening_of (asked_of line.now) }
{
    match read_asked(line) {
        Asked::Settling(said) => opening_line(said),
        Asked::Share(_) => Err(Refusal::WrongMoment),
    }
}

// As `asked` of the desk but for a header and the end.
fn line_answer(run: Run, said: Line, line: &[u8]) -> Answer
    ensures { result ≡ line_answer run line.now said }
{
    match said {
        Line::Header(_) => Answer {
            run,
            refusal: Err(Refusal::WrongMoment),
        },
        Line::Bounds(bounds) => run.bounds(bounds),
        Line::Setpoint(setpoint) => run.setpoint(setpoint),
        Line::Contract(contract) => run.contract(contract, identifier(line)),
        Line::Sample(sample) => run.sample(sample),
        Line::End => Answer {
            run,
            refusal: run.end().refusal,
        },
        Line::Malformed => Answer {
            run,
            refusal: Err(Refusal::BadLine),
        },
    }
}

// What an open run answers to a line; a share comes too early there.
pub(crate) fn answer_to(run: Run, asked: Asked, line: &[u8]) -> Answer
    ensures { result ≡ answer_to run line.now asked }
{
    match asked {
        Asked::Settling(said) => line_answer(run, said, line),
        Asked::Share(_) => Answer {
            run,
            refusal: early_refusal(run, whose(line)),
        },
    }
}
