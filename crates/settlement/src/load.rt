// The block that a run may start from, as far as it was given: its bounds first, then as many past setpoints as the windows reach back.
ghost use Rattle.std.specs.Prelude.{◌≡◌};
ghost use Rattle.channel.specs.Acceptable.{bound_in_range};
ghost use Rattle.settlement.specs.Load.{no_load, begun_with, one_fewer, between, bounds_refusal, setpoint_refusal, or_lacking};

use arithmetic::power::{Units, in_units};
use vocabulary::acceptance::Bounds;
use vocabulary::interval::Interval;
use vocabulary::refusal::Refusal;
use vocabulary::sample::in_range;

// Whether a block was begun, how many of its setpoints are still to come, and its bounds.
// Stays a flag with values beside it: the contracts speak of each of its values, one with setpoints to come that was not begun among them.
#[derive(Clone, Copy)]
pub struct Load {
    pub begun: bool,
    pub left: usize,
    pub bounds: Bounds,
}

// No block.
pub(crate) fn no_load() -> Load
    ensures { result ≡ no_load }
{
    Load {
        begun: false,
        left: 0,
        bounds: Bounds {
            oga: Units(0),
            uga: Units(0),
        },
    }
}

// A block that has its bounds and no setpoint yet.
pub(crate) fn begun_with(interval: Interval, bounds: Bounds) -> Load
    ensures { result ≡ begun_with interval bounds }
{
    Load {
        begun: true,
        left: interval.windows().to,
        bounds,
    }
}

// Both ends count.
fn bound_in_range(bound: Units) -> bool
    ensures { result ≡ bound_in_range bound.0 }
{
    (-10_800_000_000..=10_800_000_000).contains(&bound.0)
}

// Whether a setpoint lies between UGA and OGA.
fn lies_between(bounds: Bounds, setpoint: i32) -> bool
    ensures { result ≡ between bounds setpoint }
{
    let units = in_units(setpoint).0;
    bounds.uga.0 <= units && units <= bounds.oga.0
}

impl Load {
    // Why bounds are refused: not directly after the opening, or out of range.
    pub(crate) fn bounds_refusal(self, untouched: bool, bounds: Bounds) -> Result<(), Refusal>
        ensures { result ≡ bounds_refusal untouched self bounds }
    {
        if !untouched || self.begun {
            return Err(Refusal::WrongMoment);
        }
        if !bound_in_range(bounds.oga) || !bound_in_range(bounds.uga) {
            return Err(Refusal::BadBlockValue);
        }
        Ok(())
    }

    // Why a past setpoint is refused: neither in nor directly after a block, one too many, out of range, or the newest and not between the bounds.
    pub(crate) fn setpoint_refusal(self, untouched: bool, setpoint: i32) -> Result<(), Refusal>
        ensures { result ≡ setpoint_refusal untouched self setpoint }
    {
        if !untouched || !self.begun {
            return Err(Refusal::WrongMoment);
        }
        if self.left == 0 {
            return Err(Refusal::BadBlockLength);
        }
        if !in_range(setpoint) {
            return Err(Refusal::BadBlockValue);
        }
        let newest = self.left == 1;
        if newest && !lies_between(self.bounds, setpoint) {
            return Err(Refusal::BadBlockValue);
        }
        Ok(())
    }

    // With one setpoint fewer to come.
    pub(crate) fn one_fewer(self) -> Load
        ensures { result ≡ one_fewer self }
    {
        Load {
            left: self.left.saturating_sub(1),
            ..self
        }
    }

    // What is refused for nothing else is refused while setpoints are still to come.
    pub(crate) fn lacking_refusal(self) -> Result<(), Refusal>
        ensures { result ≡ or_lacking self (Ok tt) }
    {
        if self.left != 0 {
            Err(Refusal::BadBlockLength)
        } else {
            Ok(())
        }
    }
}
