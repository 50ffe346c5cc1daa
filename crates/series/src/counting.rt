// The pieces of a series by counting. The powers of a quarter hour move little from sample to sample, so they are taken in runs that stay between two
// neighbouring limits: of each such place it is counted how many powers end there and how far they reach into it. A slice is then what its own
// powers reach into it, and its whole width for each power that ends higher up.
ghost use Rattle.std.specs.Prelude.{◌≡◌, ◌^◌, ◌<◌, ◌≤◌, length, slice_index};
ghost use Rattle.series.specs.Cuts.{pieces_of, low_at};
ghost use Rattle.series.specs.Counts.{no_places, high_at, Placed, Ran, Stepped, Counted, Orderly};

use crate::cutting::Pieces;
use arithmetic::power::Power;

// The limits around a place: place k is the k-th slice, the last place all that lies above the last limit.
fn lower(limits: &[u64], place: usize) -> Power
    requires { place ≤ length limits.now }
    ensures { result.0 ≡ low_at limits.now place }
{
    if place == 0 {
        Power(0)
    } else {
        Power(limits[place - 1])
    }
}

fn upper(limits: &[u64], place: usize) -> Power
    ensures { result.0 ≡ high_at limits.now place }
{
    Power(limits.get(place).copied().unwrap_or(u64::MAX))
}

// From a place up to one that a power does not pass. No `position`: it would count from `from`, and a place among all limits is wanted.
fn climbed(limits: &[u64], from: usize, power: Power) -> usize
    requires { from ≤ length limits.now }
    ensures { (result ≤ length limits.now) × (power.0 ≤ high_at limits.now result) }
{
    for place in from..limits.len() {
        if power.0 <= limits[place] {
            return place;
        }
    }
    limits.len()
}

// From a place that a power does not pass down to the one where it ends.
fn descended(limits: &[u64], from: usize, power: Power) -> usize
    requires { (from ≤ length limits.now) × (power.0 ≤ high_at limits.now from) }
    ensures { Placed limits.now power.0 result }
{
    for below in (0..from).rev() {
        if limits[below] <= power.0 {
            return below + 1;
        }
    }
    0
}

// How many powers at the start of a series stay between two limits, and the sum of what they have above the lower one.
#[derive(Clone, Copy)]
struct Run {
    count: usize,
    sum: u64,
}

// A power below the lower limit wraps to more than the width, so one test serves for both limits. Two are looked at in a turn, so an odd one at the end may
// be left over.
fn stretch(powers: &[u64], low: Power, high: Power) -> Run
    requires { (0 < length powers.now) × ((low.0 ≤ slice_index powers.now 0) × (slice_index powers.now 0 ≤ high.0)) }
    ensures { (0 < result.count) × Ran low.0 high.0 powers.now result.sum result.count }
{
    let width = high.0 - low.0;
    let mut sum = powers[0] - low.0;
    let mut i: usize = 1;
    // no `for`, since it goes on by two
    while i + 1 < powers.len() {
        let first = powers[i].wrapping_sub(low.0);
        if width < first {
            return Run { count: i, sum };
        }
        let once = sum.wrapping_add(first);
        let second = powers[i + 1].wrapping_sub(low.0);
        let passes = width < second;
        if passes {
            return Run {
                count: i + 1,
                sum: once,
            };
        }
        sum = once.wrapping_add(second);
        i += 2;
    }
    Run { count: i, sum }
}

// The run at the start of a series, with the place that it stays at; the place before is where the search begins.
#[derive(Clone, Copy)]
struct Step {
    place: usize,
    run: Run,
}

fn first_run(powers: &[u64], limits: &[u64], from: usize) -> Step
    requires { (0 < length powers.now) × (from ≤ length limits.now) }
    ensures { Stepped limits.now powers.now result.place result.run.count result.run.sum }
{
    let power = Power(powers[0]);
    let place = descended(limits, climbed(limits, from, power), power);
    let run = stretch(powers, lower(limits, place), upper(limits, place));
    Step { place, run }
}

// The powers counted by place, into two arrays that the caller lends, so that they are not copied; two, since each has laws of its own.
fn tally(powers: &[u64], limits: &[u64], counts: &mut [u64], parts: &mut [u64])
    requires { Orderly limits.now × ((counts.old ≡ no_places) × (parts.old ≡ no_places)) }
    ensures { Counted limits.now powers.now counts.new parts.new (length powers.now) }
{
    let mut place: usize = 0;
    let mut at: usize = 0;
    // no `for`, since it goes on by a run
    while at < powers.len() {
        let step = first_run(&powers[at..], limits, place);
        place = step.place;
        counts[place] += step.run.count as u64;
        parts[place] = parts[place].wrapping_add(step.run.sum);
        at += step.run.count;
    }
}

// The pieces by counting: the width of a slice for each power that ends above it, and what the others reach into it.
pub(crate) fn counted(powers: &[u64], limits: &[u64]) -> Pieces
    requires { Orderly limits.now × (length powers.now ≤ 2 ^ 15) }
    ensures { result ≡ pieces_of limits.now powers.now }
{
    let mut counts = [0; 33];
    let mut parts = [0; 33];
    tally(powers, limits, &mut counts, &mut parts);
    let mut sums = [0; 32];
    let mut low: u64 = 0;
    let mut higher = powers.len() as u64;
    for (k, &high) in limits.iter().enumerate() {
        higher -= counts[k];
        sums[k] = parts[k].wrapping_add(higher * (high - low));
        low = high;
    }
    let rest = parts[limits.len()];
    Pieces { sums, rest }
}
