// The energies of a quarter hour in both directions, and the channel after it.
ghost use Rattle.std.specs.Prelude.{◌≡◌, ◌≤◌, length};
ghost use Rattle.contracts.specs.Terms.{terms_in};
ghost use Rattle.claims.specs.Powers.{lent, powers_of};
ghost use Rattle.claims.specs.Claims.{energies_of, measured_held};
ghost use Rattle.claims.specs.Views.{rest_by, claims_by, energies_by, measured_in};
ghost use Rattle.claims.specs.Room.{AllFit, Timely};

use crate::claim::{Claim, Rest, joined};
use crate::energies::{Sums, sliced, summed, whole};
use crate::view::{Samples, Series, viewed};
use arithmetic::energy::{Kwh, energy};
use channel::Channel;
use contracts::book::Book;
use contracts::terms::limits;
use vocabulary::direction::Direction;

// The energies of one direction: the pool's, what no contract takes, and each contract's claim. Under-delivery and shortfall are the pool's own, and not the contracts' sums.
#[derive(Clone, Copy)]
pub struct Energies {
    pub setpoint: Kwh,
    pub actual: Kwh,
    pub acceptance: Kwh,
    pub surplus: Kwh,
    pub shortfall: Kwh,
    pub under_delivery: Kwh,
    pub rest: Rest,
    pub claims: [Claim; 32],
}

// Those of both, and the channel after the quarter hour.
#[derive(Clone, Copy)]
pub struct Measured {
    pub channel: Channel,
    pub positive: Energies,
    pub negative: Energies,
}

// What no contract takes, by the sums of a direction. Sums and seconds stay two: the definitions of the energies take them apart.
fn rest(sums: Sums, seconds: u64) -> Rest
    requires { AllFit seconds sums }
    ensures { result ≡ rest_by seconds sums }
{
    Rest {
        setpoint: energy(seconds * sums.setpoint.rest),
        actual: energy(seconds * sums.actual.rest),
        acceptance: energy(seconds * sums.acceptance.rest),
    }
}

// The claims of the first `count` contracts.
fn claims(sums: Sums, seconds: u64, count: usize) -> [Claim; 32]
    requires { (count ≤ 32) × AllFit seconds sums }
    ensures { result ≡ claims_by seconds sums count }
{
    joined(
        sliced(sums.setpoint, seconds),
        sliced(sums.actual, seconds),
        sliced(sums.acceptance, seconds),
        sliced(sums.floor, seconds),
        sliced(sums.shortfall, seconds),
        count,
    )
}

// The energies of a direction.
fn energies_by(sums: Sums, seconds: u64, count: usize) -> Energies
    requires { (count ≤ 32) × AllFit seconds sums }
    ensures { result ≡ energies_by seconds sums count }
{
    Energies {
        setpoint: whole(sums.setpoint, seconds),
        actual: whole(sums.actual, seconds),
        acceptance: whole(sums.acceptance, seconds),
        surplus: energy(seconds * sums.surplus),
        shortfall: whole(sums.shortfall, seconds),
        under_delivery: energy(seconds * sums.under_delivery),
        rest: rest(sums, seconds),
        claims: claims(sums, seconds, count),
    }
}

// The energies of the samples in one direction, for the contracts of a list. The series are lent.
fn listed(
    direction: Direction,
    samples: Samples,
    series: &mut Series,
    seconds: u64,
    book: Book,
) -> Energies
    requires { Timely (lent samples) seconds }
    ensures { result ≡ energies_of seconds (powers_of direction (lent samples.entry)) (terms_in book) }
{
    let upper = limits(book.terms());
    let count = book.held();
    let seen = viewed(direction, samples, series);
    let sums = summed(direction, samples.actuals, seen, series, upper, count);
    energies_by(sums, seconds, count)
}

// Those of both directions, one after the other by the same series.
fn both(after: Channel, samples: Samples, seconds: u64, positive: Book, negative: Book) -> Measured
    requires { Timely (lent samples) seconds }
    ensures { result ≡ measured_in after seconds (lent samples.entry) (terms_in positive) (terms_in negative) }
{
    let blank = [0u64; 900];
    let mut series = Series {
        asked: blank,
        accepted: blank,
        required: blank,
        inner: blank,
        kept: blank,
    };
    let above = listed(Direction::Positive, samples, &mut series, seconds, positive);
    let below = listed(Direction::Negative, samples, &mut series, seconds, negative);
    Measured {
        channel: after,
        positive: above,
        negative: below,
    }
}

// The quarter hour that a run holds: as many samples from the start of the arrays as the channel's interval has.
pub fn measure(
    channel: Channel,
    setpoints: [i32; 900],
    actuals: [i32; 900],
    positive: Book,
    negative: Book,
) -> Measured
    ensures { result ≡ measured_held channel setpoints actuals positive negative }
{
    let windows = channel.interval().windows();
    let n = windows.samples;
    let mut ogas = [0i64; 900];
    let mut ugas = [0i64; 900];
    let after = channel.along(setpoints, n, &mut ogas, &mut ugas);
    let samples = Samples {
        setpoints: &setpoints[..n],
        actuals: &actuals[..n],
        ogas: &ogas[..n],
        ugas: &ugas[..n],
    };
    both(
        after,
        samples,
        u64::from(windows.seconds),
        positive,
        negative,
    )
}
