// The bounds along a line of up to 1,202 setpoints, oldest first: the windows at all of them by a few passes, then the bounds one by one.
ghost use Rattle.std.specs.Prelude.{◌≡◌, true, List, ◌+◌, ◌≤◌, ℤ, length};
ghost use Rattle.bounds.specs.Line.{Flat, NearWindows, SpreadWindows, Shown, led_count, Leads};

use crate::bound::{Seen, movable, next_movable};
use crate::side::Side;
use crate::widening::grown;
use vocabulary::acceptance::Bounds;
use vocabulary::interval::Interval;

// The near and the spread window at each of the n setpoints after the first 302, on one side. The spread one is made of the near
// ones, and stands where it ends.
fn show(
    side: Side,
    interval: Interval,
    line: &[i32],
    near: &mut [i32],
    spread: &mut [i32],
    aside: &mut [i32],
    n: usize,
)
    requires { (n ≤ 900) × ((302 + n ≤ length line.now) × ((302 + n ≤ length near.old) × ((302 + n ≤ length spread.old) × (302 + n ≤ length aside.old)))) }
    ensures nears { NearWindows side interval line.now n near.new }
    ensures spreads { SpreadWindows side interval line.now n spread.new }
{
    let windows = interval.windows();
    let reach = windows.near + 1;
    grown(side, line, near, aside, 302 + n, 1, reach);
    grown(
        side,
        near,
        spread,
        aside,
        302 + n,
        reach,
        windows.to - windows.from + 1,
    );
}

// OGA and UGA at each of n setpoints, by the windows there, into two series that are lent; and after the last. Each waits for the one
// before it, so what is held is made movable once, before the first. The four windows stay four series: on a flat line each of them is the line itself.
fn bounded(
    interval: Interval,
    lot: u32,
    held: Bounds,
    highest: &[i32],
    lowest: &[i32],
    most: &[i32],
    least: &[i32],
    n: usize,
    ogas: &mut [i64],
    ugas: &mut [i64],
) -> Bounds
    requires n_bound { (n ≤ 900) × ((302 + n ≤ length highest.now) × ((302 + n ≤ length lowest.now) × ((302 + n ≤ length most.now) × (302 + n ≤ length least.now)))) }
    requires n_in_bounds { (n ≤ length ogas.old) × (n ≤ length ugas.old) }
    ensures { (line : List ℤ) → Shown interval line n highest.now lowest.now most.now least.now
        → Leads interval lot held line n ogas.old ugas.old ogas.new ugas.new result }
{
    if n == 0 {
        return held;
    }
    let from = interval.windows().from;
    let mut last = movable(held);
    for i in 0..n {
        let seen = Seen {
            highest: highest[302 + i],
            lowest: lowest[302 + i],
            most: most[302 + i - from],
            least: least[302 + i - from],
        };
        last = next_movable(interval, lot, seen, last);
        ogas[i] = last.oga.0;
        ugas[i] = last.uga.0;
    }
    last
}

// Whether the first n setpoints of a line are one and the same. Then each window over them shows that one, as on days when nothing is asked for, for hours.
// No `all`: it was tried, and what it says of each setpoint was not found in it.
fn is_flat(line: &[i32], n: usize) -> bool
    requires { n ≤ length line.now }
    ensures { result ≡ true → Flat line.now n }
{
    for k in 1..n {
        if line[k] != line[0] {
            return false;
        }
    }
    true
}

// How many of some setpoints are led along: no more than 900, and than either series has places for.
#[tactic(auto, unfolding(crate::specs::Line::led_count, arithmetic::specs::Whole::least_of))]
pub fn led_count(count: usize, ogas: usize, ugas: usize) -> usize
    ensures { result ≡ led_count count ogas ugas }
{
    count.min(900).min(ogas.min(ugas))
}

// OGA and UGA along the first `count` setpoints after the first 302 of a line, from the bounds before them: as many as there is room for in the two series
// that they go into, of 900 at most. The line comes by value: so its length is known, and nothing is asked.
#[tactic(auto, unfolding(crate::specs::Line::led_count, arithmetic::specs::Whole::least_of))]
pub fn lead(
    interval: Interval,
    lot: u32,
    held: Bounds,
    line: [i32; 1202],
    count: usize,
    ogas: &mut [i64],
    ugas: &mut [i64],
) -> Bounds
    ensures { Leads interval lot held line (led_count count (length ogas.old) (length ugas.old))
        ogas.old ugas.old ogas.new ugas.new result }
{
    let n = led_count(count, ogas.len(), ugas.len());
    if is_flat(&line, 302 + n) {
        return bounded(
            interval, lot, held, &line, &line, &line, &line, n, ogas, ugas,
        );
    }
    let mut highest = [0; 1202];
    let mut lowest = [0; 1202];
    let mut most = [0; 1202];
    let mut least = [0; 1202];
    let mut aside = [0; 1202];
    show(
        Side::Upper,
        interval,
        &line,
        &mut highest,
        &mut most,
        &mut aside,
        n,
    );
    show(
        Side::Lower,
        interval,
        &line,
        &mut lowest,
        &mut least,
        &mut aside,
        n,
    );
    bounded(
        interval, lot, held, &highest, &lowest, &most, &least, n, ogas, ugas,
    )
}
