// A series cut at all limits of a direction at once.
ghost use Rattle.std.specs.Prelude.{◌≡◌, ◌%◌, ◌^◌, ◌≤◌, true, length, take};
ghost use Rattle.series.specs.Slices.{slice_of, sliced_of};
ghost use Rattle.series.specs.Cuts.{pieces_of};
ghost use Rattle.series.specs.Counts.{Orderly};

use crate::counting::counted;
use arithmetic::power::Power;

// The sum of each slice, and of what lies above the last limit.
#[derive(Clone, Copy)]
pub struct Pieces {
    pub sums: [u64; 32],
    pub rest: u64,
}

// The part of a power between two limits.
#[tactic(auto, unfolding(crate::specs::Slices::slice_of))]
fn slice(power: Power, low: Power, high: Power) -> Power
    ensures { result.0 ≡ slice_of low.0 high.0 power.0 }
{
    power.least(high).excess(low)
}

// The sum of these parts. It wraps where the powers alone pass a u64, which no quarter hour's do: a law says so.
fn sliced(powers: &[u64], low: Power, high: Power) -> u64
    ensures { result ≡ sliced_of low.0 high.0 powers.now % 2 ^ 64 }
{
    let mut sum: u64 = 0;
    for &power in powers {
        sum = sum.wrapping_add(slice(Power(power), low, high).0);
    }
    sum
}

// The pieces one after the other, whatever the limits are.
fn plain(powers: &[u64], limits: &[u64]) -> Pieces
    requires { length limits.now ≤ 32 }
    ensures { result ≡ pieces_of limits.now powers.now }
{
    let mut sums = [0; 32];
    let mut low = Power(0);
    for (k, &limit) in limits.iter().enumerate() {
        let high = Power(limit);
        sums[k] = sliced(powers, low, high);
        low = high;
    }
    let rest = sliced(powers, low, Power(u64::MAX));
    Pieces { sums, rest }
}

// Whether limits rise, and none is so high that products with the length of a series wrap.
fn orderly(limits: &[u64]) -> bool
    requires { length limits.now ≤ 32 }
    ensures { result ≡ true → Orderly limits.now }
{
    limits.is_sorted() && limits.iter().all(|limit| *limit <= 281_474_976_710_656)
}

// By counting where the limits are those of contracts and the series is no longer than a quarter hour's, else plainly.
fn pieces_of(powers: &[u64], limits: &[u64]) -> Pieces
    requires { length limits.now ≤ 32 }
    ensures { result ≡ pieces_of limits.now powers.now }
{
    if powers.len() <= 32768 && orderly(limits) {
        counted(powers, limits)
    } else {
        plain(powers, limits)
    }
}

// A series cut at the first `count` limits, each the upper limit of a slice and the lower one of the next. An array and a count stay, since a slice would
// have to be asked to be no longer than 32.
pub fn cut(powers: &[u64], limits: [u64; 32], count: usize) -> Pieces
    ensures { result ≡ pieces_of (take count limits) powers.now }
{
    pieces_of(powers, &limits[..count.min(32)])
}
