// The gradient, and the next OGA and UGA by those before them.
ghost use Rattle.std.specs.Prelude.{◌≡◌, ◌^◌, ◌<◌};
ghost use Rattle.std.specs.Int.{w64};
ghost use Rattle.std.proofs.Common.{SFits};
ghost use Rattle.arithmetic.specs.Whole.{up, down};
ghost use Rattle.bounds.specs.Side.{inward_of, climb_of, onward_of, next_of};
ghost use Rattle.bounds.specs.Movable.{Movable, MovableBounds, movable_of};

use crate::side::{Side, farther};
use arithmetic::power::{Units, in_units};
use arithmetic::whole::{larger, smaller};
use vocabulary::acceptance::Bounds;
use vocabulary::interval::Interval;

// The largest and the smallest setpoint of the near window, and the most and the least of the spread window.
#[derive(Clone, Copy)]
pub struct Seen {
    pub highest: i32,
    pub lowest: i32,
    pub most: i32,
    pub least: i32,
}

// The gradient per interval, in units, by the largest and the smallest setpoint in the spread window: a 270th of what is steepest each second, so 20 units
// for a kW. It is never negative, since the lot is not. Interval and lot go together but stay two, since the definitions take them apart.
fn climb(interval: Interval, lot: u32, most: i32, least: i32) -> i64
    ensures { (result ≡ climb_of interval lot most least) × ((down result ≡ 0) × (up result < 2 ^ 40)) }
{
    let steepest = larger(i64::from(lot), i64::from(most) - i64::from(least));
    steepest * i64::from(20 * interval.windows().seconds)
}

// A bound, one gradient inward.
fn inward(side: Side, bound: i64, gradient: i64) -> i64
    requires { SFits w64 (inward_of side bound gradient) }
    ensures { result ≡ inward_of side bound gradient }
{
    match side {
        Side::Upper => bound - gradient,
        Side::Lower => bound + gradient,
    }
}

// The next OGA or UGA, by the setpoint farthest out of the near window, the one that is held and the gradient.
fn onward(side: Side, near: i32, held: i64, gradient: i64) -> i64
    requires { ((down gradient ≡ 0) × (up gradient < 2 ^ 40)) × Movable side held }
    ensures { (result ≡ onward_of side near held gradient) × Movable side result }
{
    farther(side, in_units(near).0, inward(side, held, gradient))
}

// OGA and UGA after one sample more, by what its windows show, from bounds that can be moved by a gradient. So can the next ones, since
// they don't lie inside a setpoint: along a line no bound has to be looked at before it is moved.
pub(crate) fn next_movable(interval: Interval, lot: u32, seen: Seen, held: Bounds) -> Bounds
    requires { MovableBounds held }
    ensures { (result ≡ next_of interval lot seen held) × MovableBounds result }
{
    let gradient = climb(interval, lot, seen.most, seen.least);
    let above = onward(Side::Upper, seen.highest, held.oga.0, gradient);
    let below = onward(Side::Lower, seen.lowest, held.uga.0, gradient);
    Bounds {
        oga: Units(above),
        uga: Units(below),
    }
}

// Bounds that can be moved by a gradient, and are followed by the same ones as those that are held. An OGA below -2 ^ 44 units, or a UGA
// above 2 ^ 44, lies inside every setpoint, so the next one goes by the near window alone, however far inside it lies.
pub(crate) fn movable(held: Bounds) -> Bounds
    ensures { result ≡ movable_of held }
{
    Bounds {
        oga: Units(larger(held.oga.0, -17_592_186_044_416)),
        uga: Units(smaller(held.uga.0, 17_592_186_044_416)),
    }
}

// OGA and UGA after one sample more, by what its windows show, whatever is held.
pub fn next_bounds(interval: Interval, lot: u32, seen: Seen, held: Bounds) -> Bounds
    ensures { result ≡ next_of interval lot seen held }
{
    next_movable(interval, lot, seen, movable(held))
}
