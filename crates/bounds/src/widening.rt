// The windows at every place of a line of setpoints at once: two windows that touch or overlap make a longer one, so a few passes
// over the line reach any length.
ghost use Rattle.std.specs.Prelude.{◌≡◌, List, ◌+◌, ◌-◌, ◌≤◌, ◌<◌, ℤ, length};
ghost use Rattle.series.specs.Places.{Fills};
ghost use Rattle.bounds.specs.Widening.{either_at, Reaching};

use crate::side::{Side, outer};

// Windows of w + d setpoints, from those of w that end d places apart. Slices and how much of them counts stay apart: the laws say up to which place
// windows are right.
fn widen(side: Side, a: &[i32], b: &mut [i32], len: usize, w: usize, d: usize)
    requires { ((len ≤ length a.now) × (len ≤ length b.old)) × ((0 < w) × (w + d ≤ 1202)) }
    ensures { Fills (either_at side a.now d) (w + d - 1) len b.new }
{
    for i in w + d - 1..len {
        b[i] = outer(side, a[i], a[i - d]);
    }
}

// By how much windows of m setpoints are widened at once, on the way to `to`. The two lengths stay two numbers: the first moves at each turn.
fn step(m: usize, to: usize) -> usize
    requires { (0 < m) × (m ≤ to) }
    ensures { ((result ≤ m) × (m + result ≤ to)) × (m < to → 0 < result) }
{
    m.min(to - m)
}

// Windows of `from` setpoints made windows of `to`; every second pass is written aside.
fn grow(side: Side, x: &mut [i32], y: &mut [i32], len: usize, from: usize, to: usize)
    requires { ((len ≤ length x.old) × (len ≤ length y.old)) × ((0 < from) × ((from ≤ to) × (to ≤ 1202))) }
    ensures { (line : List ℤ) → Reaching side line from len x.old → Reaching side line to len x.new }
{
    let mut m = from;
    // no `for`, since each turn widens by as much as it can
    while m < to {
        let d = step(m, to);
        widen(side, x, y, len, m, d);
        m += d;
        let e = step(m, to);
        widen(side, y, x, len, m, e);
        m += e;
    }
}

// Whether an odd number of passes makes windows of `to` setpoints from those of `from`. It only saves a pass: the windows are right
// whatever it answers.
fn odd_passes(from: usize, to: usize) -> bool
    requires { (0 < from) × (from ≤ to) }
{
    let mut odd = false;
    let mut m = from;
    // no `for`, since it widens as `grow` does
    while m < to {
        m += step(m, to);
        odd = !odd;
    }
    odd
}

// Windows of `from` setpoints made windows of `to` beside them. `grow` makes two passes a turn: so the first goes straight into its
// place if there is an odd number, or the last one would only copy; else the first two go by way of what is lent aside.
pub(crate) fn grown(
    side: Side,
    a: &[i32],
    x: &mut [i32],
    y: &mut [i32],
    len: usize,
    from: usize,
    to: usize,
)
    requires { ((len ≤ length a.now) × ((len ≤ length x.old) × (len ≤ length y.old))) × ((0 < from) × ((from ≤ to) × (to ≤ 1202))) }
    ensures { (line : List ℤ) → Reaching side line from len a.now → Reaching side line to len x.new }
{
    let d = step(from, to);
    let wider = from + d;
    if odd_passes(from, to) {
        widen(side, a, x, len, from, d);
        grow(side, x, y, len, wider, to);
    } else {
        widen(side, a, y, len, from, d);
        let e = step(wider, to);
        widen(side, y, x, len, wider, e);
        grow(side, x, y, len, wider + e, to);
    }
}
