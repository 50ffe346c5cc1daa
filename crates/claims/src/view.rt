// What a direction sees of the samples of a quarter hour, as series of plain numbers that the caller lends.
ghost use Rattle.std.specs.Prelude.{◌≡◌, ◌<◌, ◌≤◌, ◌++◌, length, drop};
ghost use Rattle.series.specs.Scan.{each};
ghost use Rattle.claims.specs.Powers.{lent};
ghost use Rattle.claims.specs.Views.{delivered_of, idle_of, falls_of, amounts_of};
ghost use Rattle.claims.specs.Room.{Level, Faced, Viewed};

use arithmetic::power::Units;
use arithmetic::whole::{above_zero, below_zero};
use values::part::{Part, facing};
use values::value::{Quantity, amount};
use vocabulary::direction::Direction;

// The quantities of one part that are summed over a quarter hour, but for the actual, in units.
#[derive(Clone, Copy, Debug, PartialEq, Eq)]
pub struct Amounts {
    pub setpoint: u64,
    pub acceptance: u64,
    pub surplus: u64,
    pub under_delivery: u64,
    pub inner: u64,
    pub floor: u64,
    pub covered: u64,
}

// How many parts are not idle, how many fall short of the inner bound, and the sums of those quantities that no contract has a slice of.
#[derive(Clone, Copy, Debug, PartialEq, Eq)]
pub struct Seen {
    pub count: usize,
    pub short: usize,
    pub surplus: u64,
    pub under_delivery: u64,
}

// The samples of a quarter hour in kW, as many actuals as setpoints, with the bounds at each in units. Four series: the channel gives the bounds apart from
// the samples.
#[derive(Clone, Copy)]
pub struct Samples<'a> {
    pub setpoints: &'a [i32],
    pub actuals: &'a [i32],
    pub ogas: &'a [i64],
    pub ugas: &'a [i64],
}

// A quantity of each sample that is not idle, one after the other, in units; of the inner bound and of what is kept only where the one falls short of the
// other. Each direction in turn writes over the same series, since making them takes longer than a good part of what is done with them.
#[derive(Clone, Copy)]
pub struct Series {
    pub asked: [u64; 900],
    pub accepted: [u64; 900],
    pub required: [u64; 900],
    pub inner: [u64; 900],
    pub kept: [u64; 900],
}

// What of an actual power a direction sees, in units.
fn delivered_at(direction: Direction, actual: i32) -> u64
    ensures { result ≡ delivered_of direction actual }
{
    match direction {
        Direction::Positive => u64::from(above_zero(actual)) * 5400,
        Direction::Negative => u64::from(below_zero(actual)) * 5400,
    }
}

// That of each sample, without a test of the side that it is on, which on calm days would cost more than it spares.
pub(crate) fn delivered(direction: Direction, actuals: &[i32], out: &mut [u64])
    requires { length actuals.now ≤ length out.old }
    ensures { out.new ≡ each (delivered_of direction) actuals.now ++ drop (length actuals.now) out.old }
{
    for (i, actual) in actuals.iter().enumerate() {
        out[i] = delivered_at(direction, *actual);
    }
}

// Whether nothing is asked for, required or accepted on a part: then each of its quantities but the actual is 0, and it adds nothing to their sums and slices.
// Where the channel does not reach the part, the actual is not looked at: on calm days it is on this side or the other at random.
fn idle(part: Part) -> bool
    ensures { result ≡ idle_of part }
{
    let unreached = part.outer.0 == 0;
    part.setpoint == 0 && (unreached || part.actual == 0) && part.inner.0 == 0
}

fn amounts_of(part: Part) -> Amounts
    ensures { result ≡ amounts_of part }
{
    Amounts {
        setpoint: amount(Quantity::Setpoint, part).0,
        acceptance: amount(Quantity::Acceptance, part).0,
        surplus: amount(Quantity::Surplus, part).0,
        under_delivery: amount(Quantity::UnderDelivery, part).0,
        inner: amount(Quantity::Inner, part).0,
        floor: amount(Quantity::Floor, part).0,
        covered: amount(Quantity::Covered, part).0,
    }
}

// 1 where what is covered falls short of the inner bound, and else 0: a number to add, so that the processor has no turn to guess.
fn falls_short(covered: u64, inner: u64) -> usize
    ensures { result ≡ falls_of covered inner }
{
    usize::from(covered < inner)
}

// The side of the i-th sample that a direction looks at.
fn faced(direction: Direction, samples: Samples, i: usize) -> Part
    requires { Level (lent samples) × (i < length samples.setpoints.now) }
    ensures { Faced direction (lent samples.entry) i result }
{
    facing(
        direction,
        samples.setpoints[i],
        samples.actuals[i],
        Units(samples.ogas[i]),
        Units(samples.ugas[i]),
    )
}

// Each quantity but the actual that has a slice, as a series of its own. A sample that is idle on the direction's side is left out; and one that does
// not fall short is written over in the series of the inner bound and of what is kept, of which only the difference counts.
// Of one that does, all that is covered is kept, so that what is kept need not be worked out.
pub(crate) fn viewed(direction: Direction, samples: Samples, series: &mut Series) -> Seen
    requires { Level (lent samples) }
    ensures { Viewed direction (lent samples.entry)
        series.new.asked series.new.accepted series.new.required series.new.inner series.new.kept
        result.count result.short result.surplus result.under_delivery (length samples.entry.setpoints.now) }
{
    let mut count: usize = 0;
    let mut short: usize = 0;
    let mut surplus: u64 = 0;
    let mut under_delivery: u64 = 0;
    for i in 0..samples.setpoints.len() {
        let part = faced(direction, samples, i);
        if idle(part) {
            continue;
        }
        let amounts = amounts_of(part);
        series.asked[count] = amounts.setpoint;
        series.accepted[count] = amounts.acceptance;
        series.required[count] = amounts.floor;
        series.inner[short] = amounts.inner;
        series.kept[short] = amounts.covered;
        short += falls_short(amounts.covered, amounts.inner);
        surplus = surplus.wrapping_add(amounts.surplus);
        under_delivery = under_delivery.wrapping_add(amounts.under_delivery);
        count += 1;
    }
    Seen {
        count,
        short,
        surplus,
        under_delivery,
    }
}
