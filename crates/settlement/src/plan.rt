// What a run was opened for. Interval and lot stand in the channel, which follows setpoints by them, and nowhere else.
ghost use Rattle.std.specs.Prelude.{◌≡◌};
ghost use Rattle.arithmetic.specs.Whole.{up, least_of};
ghost use Rattle.settlement.specs.Calls.{interval_of};
ghost use Rattle.settlement.specs.Plan.{lot_meant, plan_of};

use arithmetic::date::Date;
use arithmetic::whole::above_zero;
use vocabulary::header::{Header, Lot};
use vocabulary::interval::Interval;

#[derive(Clone, Copy)]
pub struct Plan {
    pub date: Date,
    pub quarters: u8,
}

// The interval of so many seconds.
pub fn interval_of(seconds: u32) -> Interval
    ensures { result ≡ interval_of seconds }
{
    match seconds {
        1 => Interval::One,
        3 => Interval::Three,
        _ => Interval::Four,
    }
}

// A count as a u8, 255 at most.
fn count_of(n: i32) -> u8
    ensures { result ≡ least_of (up n) 255 }
{
    above_zero(n).min(255) as u8
}

// The lot that is used, in kW: 5,000 where it is left blank.
pub(crate) fn lot_meant(lot: Lot) -> i32
    ensures { result ≡ lot_meant lot }
{
    match lot {
        Lot::Blank => 5_000,
        Lot::Kw(kw) => kw,
    }
}

// The plan of a header.
pub(crate) fn plan_of(header: Header) -> Plan
    ensures { result ≡ plan_of header }
{
    Plan {
        date: header.date,
        quarters: count_of(header.quarters),
    }
}
