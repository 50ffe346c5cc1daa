// Why a call is refused: each call's grounds in the order of the table ('Refusals'), the first that holds.
ghost use Rattle.std.specs.Prelude.{◌≡◌, cond, ◌<◌, ◌-◌, eqb, leb};
ghost use Rattle.vocabulary.specs.Refusals.{number_of};
ghost use Rattle.settlement.specs.Calls.{seconds_known, open_refusal, end_refusal, unbegun, take_refusal};

use crate::plan::lot_meant;
use arithmetic::whole::{above_zero, within};
use vocabulary::header::Header;
use vocabulary::refusal::Refusal;

fn seconds_known(seconds: u32) -> bool
    ensures { result ≡ seconds_known seconds }
{
    matches!(seconds, 1 | 3 | 4)
}

// A header: what a run is opened for, and what a recording is mended for.
pub fn open_refusal(header: Header) -> Result<(), Refusal>
    ensures { result ≡ open_refusal header }
{
    if !seconds_known(above_zero(header.interval)) {
        return Err(Refusal::BadInterval);
    }
    if !within(1, lot_meant(header.lot), 1_000_000) {
        return Err(Refusal::BadLot);
    }
    if !header.date.is_real() {
        return Err(Refusal::BadDate);
    }
    if !within(1, header.quarters, 100) {
        return Err(Refusal::BadQuarters);
    }
    Ok(())
}

// The counts go one by one, as the definitions of the same names take them.

// Whether no sample was given yet, in a run that takes some.
pub(crate) fn before_samples(filled: usize, taken: u8, quarters: u8) -> bool
    ensures { result ≡ unbegun filled taken quarters }
{
    let untaken = taken == 0;
    filled == 0 && untaken && quarters != 0
}

// Why taking is refused: no quarter hour waits.
pub(crate) fn take_refusal(
    samples: usize,
    filled: usize,
    taken: u8,
    quarters: u8,
) -> Result<(), Refusal>
    ensures { (result ≡ take_refusal samples filled taken quarters) × ((number_of result ≡ 0 → taken < 255)) }
{
    if filled < samples || quarters <= taken {
        return Err(Refusal::WrongMoment);
    }
    Ok(())
}

// How many samples a quarter hour still takes: none while a block lacks setpoints, and none after the last quarter hour.
pub(crate) fn places(left: usize, samples: usize, filled: usize, taken: u8, quarters: u8) -> usize
    ensures { result ≡ cond (eqb left 0) (cond (leb quarters taken) 0 (samples - filled)) 0 }
{
    if left != 0 || taken >= quarters {
        return 0;
    }
    samples.saturating_sub(filled)
}

pub(crate) fn end_refusal(taken: u8, quarters: u8) -> Result<(), Refusal>
    ensures { result ≡ end_refusal taken quarters }
{
    let missing = taken < quarters;
    if quarters == 0 || missing {
        return Err(Refusal::WrongMoment);
    }
    Ok(())
}
