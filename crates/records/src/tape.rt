// The samples of the quarter hour at hand, kept until it is taken.
ghost use Rattle.std.specs.Prelude.{◌≡◌, ◌<◌};
ghost use Rattle.vocabulary.specs.Interval.{windows_of};
ghost use Rattle.records.specs.Tape.{longer, Admitted, one_recorded};

use vocabulary::interval::Interval;
use vocabulary::refusal::Refusal;
use vocabulary::sample::{Sample, in_range};

// Only the first `filled` places count.
// Stays two arrays: there is no heap, and channel and claims go along the setpoints and the actuals apart.
#[derive(Clone, Copy)]
pub struct Tape {
    pub setpoints: [i32; 900],
    pub actuals: [i32; 900],
    pub filled: usize,
}

// Why a sample is refused: a quarter hour waits, or all are taken; or a power is out of range. The counts go one by one: they come from three places.
fn sample_refusal(
    samples: usize,
    filled: usize,
    taken: u8,
    quarters: u8,
    sample: Sample,
) -> Result<(), Refusal>
    ensures { Admitted samples filled taken quarters sample.setpoint sample.actual result }
{
    if samples <= filled || quarters <= taken {
        return Err(Refusal::WrongMoment);
    }
    if !in_range(sample.setpoint) || !in_range(sample.actual) {
        return Err(Refusal::BadPower);
    }
    Ok(())
}

impl Tape {
    // One sample more.
    fn with(mut self, sample: Sample) -> Tape
        requires { self.filled < 900 }
        ensures { result ≡ longer self sample.setpoint sample.actual }
    {
        self.setpoints[self.filled] = sample.setpoint;
        self.actuals[self.filled] = sample.actual;
        self.filled += 1;
        self
    }

    // With one sample more of a quarter hour, where it is not refused.
    pub fn with_sample(
        self,
        interval: Interval,
        taken: u8,
        quarters: u8,
        sample: Sample,
    ) -> Result<Tape, Refusal>
        ensures { result ≡ one_recorded (windows_of interval).samples taken quarters self sample.setpoint sample.actual }
    {
        let samples = interval.windows().samples;
        sample_refusal(samples, self.filled, taken, quarters, sample)?;
        Ok(self.with(sample))
    }
}
