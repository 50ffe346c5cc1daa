// A sample, as calls take it and lines say it: setpoint and actual in kW.
ghost use Rattle.std.specs.Prelude.{◌≡◌};
ghost use Rattle.vocabulary.specs.Sample.{power_in_range};

use arithmetic::whole::within;

#[derive(Clone, Copy, Debug, PartialEq, Eq)]
pub struct Sample {
    pub setpoint: i32,
    pub actual: i32,
}

// Whether a power may be a sample's.
pub fn in_range(power: i32) -> bool
    ensures { result ≡ power_in_range power }
{
    within(-2_000_000, power, 2_000_000)
}
