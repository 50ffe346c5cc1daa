// The lines of a recording, each read straight out of a block as those of a stretch are. Every other line is left to the reader of single lines.
ghost use Rattle.std.specs.Prelude.{◌≡◌, drop};
ghost use Rattle.lines.specs.Lines.{lines_of};
ghost use Rattle.samples.specs.Scan.{Ended};
ghost use Rattle.samples.specs.Recorded.{first_recorded, recorded_at};

use crate::{LF, pair_at, power_at};
use vocabulary::recorded::Recorded;
use vocabulary::sample::Sample;

// A recorded sample, and the place after its line's LF.
#[derive(Clone, Copy)]
pub struct RecordedLine {
    pub recorded: Recorded,
    pub to: usize,
}

// The line that starts at a place, if it is a recorded sample in range.
fn entered_at(lines: &[u8], at: usize) -> Option<RecordedLine>
    requires { Ended lines.now at }
    ensures { result ≡ first_recorded at (lines_of (drop at lines.now)) }
{
    if lines[at] != b'G' || lines[at + 1] != b'\t' {
        return None;
    }
    let second = power_at(lines, at + 2)?;
    if lines[second.to] != b'\t' {
        return None;
    }
    let row = pair_at(lines, second.to + 1)?;
    Some(RecordedLine {
        recorded: Recorded {
            second: second.value,
            sample: Sample {
                setpoint: row.setpoint,
                actual: row.actual,
            },
        },
        to: row.to,
    })
}

// The line that starts at a place of some complete lines, of which the last byte is an LF: a look at that byte is all that a line costs beside its own bytes.
pub fn recorded_at(lines: &[u8], at: usize) -> Option<RecordedLine>
    ensures { result ≡ recorded_at lines.now at }
{
    if lines.len() <= at || lines[lines.len() - 1] != LF {
        return None;
    }
    entered_at(lines, at)
}
