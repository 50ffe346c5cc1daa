// The two sides of the channel: the upper bound follows the largest setpoints, the lower one the smallest.
ghost use Rattle.std.specs.Prelude.{◌≡◌};
ghost use Rattle.bounds.specs.Side.{farther_of};

use arithmetic::whole::{larger, smaller};

// One rule, seen from two sides. It stays an enum: each law is said once, for any side.
#[derive(Clone, Copy, Debug, PartialEq, Eq)]
pub enum Side {
    Upper,
    Lower,
}

// Of two powers the one that lies farther out.
pub fn farther(side: Side, a: i64, b: i64) -> i64
    ensures { result ≡ farther_of side a b }
{
    match side {
        Side::Upper => larger(a, b),
        Side::Lower => smaller(a, b),
    }
}

// Of two setpoints the one that lies farther out, by the same rule: a generic one would need an order of its own in each law.
pub(crate) fn outer(side: Side, a: i32, b: i32) -> i32
    ensures { result ≡ farther_of side a b }
{
    farther(side, i64::from(a), i64::from(b)) as i32
}
