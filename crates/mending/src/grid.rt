// The seconds that a recording has to have: one in each interval of its stretch.
ghost use Rattle.std.specs.Prelude.{◌≡◌, ◌-◌, ◌*◌, ◌/◌, ◌≤◌, nat_lt};
ghost use Rattle.arithmetic.specs.Whole.{up};
ghost use Rattle.mending.specs.Mending.{grid_of, seconds_of, outside};

use arithmetic::whole::above_zero;
use settlement::plan::interval_of;
use vocabulary::header::Header;
use vocabulary::interval::Interval;

// No longer hole is filled in, in seconds.
const LONGEST: u64 = 60;

// Its samples have the places 0, 1, 2, .. up to their number.
#[derive(Clone, Copy)]
pub struct Grid {
    pub interval: Interval,
    pub places: u32,
}

// The grid of a header that is accepted.
pub(crate) fn grid_of(header: Header) -> Grid
    requires { up header.quarters ≤ 100 }
    ensures { result ≡ grid_of header }
{
    let interval = interval_of(above_zero(header.interval));
    Grid {
        interval,
        places: above_zero(header.quarters) * interval.windows().samples as u32,
    }
}

// The place of a second. Each divisor is a constant, by which a processor need not divide.
pub(crate) fn place_of(grid: Grid, second: u32) -> u32
    ensures { result ≡ second / seconds_of grid }
{
    match grid.interval {
        Interval::One => second,
        Interval::Three => second / 3,
        Interval::Four => second / 4,
    }
}

// The second of a place, or the seconds of so many places.
pub(crate) fn seconds_of(grid: Grid, places: u32) -> u64
    ensures { result ≡ places * seconds_of grid }
{
    u64::from(places) * u64::from(grid.interval.windows().seconds)
}

// Whether a second lies outside the stretch, or is no multiple of the interval.
pub(crate) fn is_outside(grid: Grid, second: i32) -> bool
    ensures { result ≡ outside grid second }
{
    if second < 0 {
        return true;
    }
    let at = above_zero(second);
    let place = place_of(grid, at);
    grid.places <= place || seconds_of(grid, place) != u64::from(at)
}

// Whether more than 60 seconds in a row are missing from a place up to another.
pub(crate) fn is_long(grid: Grid, from: u64, until: u32) -> bool
    ensures { result ≡ nat_lt 60 ((until - from) * seconds_of grid) }
{
    let until = u64::from(until);
    from < until && LONGEST < seconds_of(grid, (until - from) as u32)
}
