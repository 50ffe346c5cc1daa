// The sums of a quarter hour in one direction, each quantity cut once at the limits of all contracts, and the energies that they come to.
ghost use Rattle.std.specs.Prelude.{◌≡◌, ℕ, ◌+◌, ◌*◌, ◌^◌, ◌<◌, ◌≤◌, length, take, slice_index};
ghost use Rattle.series.specs.Sums.{sum_of};
ghost use Rattle.series.specs.Scan.{each};
ghost use Rattle.series.specs.Cuts.{pieces_of};
ghost use Rattle.claims.specs.Views.{delivered_of, sums_by, energy_held, less_of, short_of, whole_of};
ghost use Rattle.claims.specs.Room.{Fits};

use crate::view::{Seen, Series, delivered};
use arithmetic::energy::{Kwh, energy};
use series::cutting::{Pieces, cut};
use vocabulary::direction::Direction;

// The sums over a quarter hour: of what the contracts have slices of, by slice, and of the others.
#[derive(Clone, Copy)]
pub struct Sums {
    pub setpoint: Pieces,
    pub actual: Pieces,
    pub acceptance: Pieces,
    pub floor: Pieces,
    pub shortfall: Pieces,
    pub surplus: u64,
    pub under_delivery: u64,
}

// The pieces of the first n powers of a series. The limits go with their count, as `cut` takes them.
fn pieces(series: &[u64], n: usize, upper: [u64; 32], count: usize) -> Pieces
    requires { n ≤ length series.now }
    ensures { result ≡ pieces_of (take count upper) (take n series.now) }
{
    cut(&series[..n], upper, count)
}

// Those of what was delivered in a direction, by a series that is lent.
fn pieces_delivered(
    direction: Direction,
    actuals: &[i32],
    series: &mut [u64],
    upper: [u64; 32],
    count: usize,
) -> Pieces
    requires { length actuals.now ≤ length series.old }
    ensures { (result ≡ pieces_of (take count upper) (each (delivered_of direction) actuals.now)) × (length series.new ≡ length series.old) }
{
    delivered(direction, actuals, series);
    pieces(series, actuals.len(), upper, count)
}

// What sums have above others, place by place. Of a series and of what another covers of it, that is what the other lacks (series, proofs/Shorts).
fn excesses(sums: [u64; 32], others: [u64; 32]) -> [u64; 32]
    ensures { result ≡ less_of sums others }
{
    let mut out = sums;
    for k in 0..32 {
        out[k] = sums[k].saturating_sub(others[k]);
    }
    out
}

// What the pieces of the first n powers of one series have above those of another: what is short of the inner bound is what its pieces have above
// those of what is kept.
fn pieces_short(inner: &[u64], kept: &[u64], n: usize, upper: [u64; 32], count: usize) -> Pieces
    requires { (n ≤ length inner.now) × (n ≤ length kept.now) }
    ensures { result ≡ short_of (pieces_of (take count upper) (take n inner.now)) (pieces_of (take count upper) (take n kept.now)) }
{
    let all = pieces(inner, n, upper, count);
    let part = pieces(kept, n, upper, count);
    Pieces {
        sums: excesses(all.sums, part.sums),
        rest: all.rest.saturating_sub(part.rest),
    }
}

// The sums of a direction, at the first `count` limits, by what was seen of the samples. What was delivered goes where what was asked for stood, once
// that is cut.
pub(crate) fn summed(
    direction: Direction,
    actuals: &[i32],
    seen: Seen,
    series: &mut Series,
    upper: [u64; 32],
    count: usize,
) -> Sums
    requires { (seen.count ≤ 900) × (seen.short ≤ 900) × (length actuals.now ≤ 900) }
    ensures { result ≡ sums_by direction (take count upper) seen actuals.now series.old.asked series.old.accepted series.old.required
        series.old.inner series.old.kept }
{
    let n = seen.count;
    Sums {
        setpoint: pieces(&series.asked, n, upper, count),
        actual: pieces_delivered(direction, actuals, &mut series.asked, upper, count),
        acceptance: pieces(&series.accepted, n, upper, count),
        floor: pieces(&series.required, n, upper, count),
        shortfall: pieces_short(&series.inner, &series.kept, seen.short, upper, count),
        surplus: seen.surplus,
        under_delivery: seen.under_delivery,
    }
}

// The energy of a sum. Most contracts of a calm quarter hour have none, which needs no division.
fn energy_held(sum: u64, seconds: u64) -> Kwh
    requires { seconds * sum < 2 ^ 64 }
    ensures { result ≡ energy_held seconds sum }
{
    if sum == 0 {
        return Kwh(0);
    }
    energy(seconds * sum)
}

// The energy of each sum. No `map`: each sum needs its own bound; it was tried, and the proof did not close.
fn energies(sums: [u64; 32], seconds: u64) -> [Kwh; 32]
    requires { (k : ℕ) → seconds * slice_index sums k < 2 ^ 64 }
    ensures { result ≡ each (energy_held seconds) sums }
{
    let mut out = [Kwh(0); 32];
    for k in 0..32 {
        out[k] = energy_held(sums[k], seconds);
    }
    out
}

// The slices and the rest, which make the whole (proofs/Rests).
fn total(sums: [u64; 32], rest: u64) -> u64
    requires { sum_of sums + rest < 2 ^ 64 }
    ensures { result ≡ sum_of sums + rest }
{
    rest + sums.iter().sum::<u64>()
}

// The energies of the slices of a quantity, by its pieces.
pub(crate) fn sliced(pieces: Pieces, seconds: u64) -> [Kwh; 32]
    requires { Fits seconds pieces }
    ensures { result ≡ each (energy_held seconds) pieces.sums }
{
    energies(pieces.sums, seconds)
}

// The energy of all of it.
pub(crate) fn whole(pieces: Pieces, seconds: u64) -> Kwh
    requires { Fits seconds pieces }
    ensures { result ≡ energy_held seconds (whole_of pieces) }
{
    energy(seconds * total(pieces.sums, pieces.rest))
}
