// What the fields of a script's line say. A field that is missing or no number counts as 0, and a number that its type can't hold as
// the nearest that it can.
ghost use Rattle.std.specs.Prelude.{◌≤◌};

use arithmetic::date::Date;
use arithmetic::whole::{negative_part, positive_part};
use fields::number::long_number_of;
use fields::split::split_of;
use settlement::plan::interval_of;
use vocabulary::direction::Direction;
use vocabulary::interval::Interval;
use vocabulary::refusal::Refusal;

// What a number of a refusal stands for. Searched by the number, so that the order here says nothing.
const REFUSALS: [Refusal; 22] = [
    Refusal::WrongMoment,
    Refusal::BadInterval,
    Refusal::BadLot,
    Refusal::BadDate,
    Refusal::BadQuarters,
    Refusal::TooManyContracts,
    Refusal::BadIdentifier,
    Refusal::IdentifierTaken,
    Refusal::BadAward,
    Refusal::AwardsTooHigh,
    Refusal::BadPrice,
    Refusal::PriceTooLow,
    Refusal::BadPower,
    Refusal::BadLine,
    Refusal::NoEnd,
    Refusal::BufferTooShort,
    Refusal::BadBlockLength,
    Refusal::BadBlockValue,
    Refusal::NoFirstSample,
    Refusal::HoleTooLong,
    Refusal::SecondsOutOfOrder,
    Refusal::MisplacedShare,
];

// No line of a script has more fields than a split keeps.
pub(crate) fn field(line: &[u8], k: usize) -> &[u8] {
    split_of(line).field(line, k)
}

pub(crate) fn letter(line: &[u8], k: usize) -> u8 {
    field(line, k).first().copied().unwrap_or(0)
}

pub(crate) fn number(line: &[u8], k: usize) -> i64 {
    long_number_of(field(line, k), 18).unwrap_or(0)
}

pub(crate) fn integer(line: &[u8], k: usize) -> i32 {
    let n = number(line, k);
    i32::try_from(n).unwrap_or(if n < 0 { i32::MIN } else { i32::MAX })
}

// A number from 0 to `most`.
pub(crate) fn count(line: &[u8], k: usize, most: u64) -> u64
    ensures { result ≤ most }
{
    positive_part(number(line, k)).min(most)
}

pub(crate) fn byte(line: &[u8], k: usize) -> u8 {
    count(line, k, 255) as u8
}

// Year, month and day, each in a field of its own.
pub(crate) fn date(line: &[u8], k: usize) -> Date
    requires { k ≤ 8 }
{
    Date {
        year: count(line, k, 65_535) as u16,
        month: byte(line, k + 1),
        day: byte(line, k + 2),
    }
}

pub(crate) fn direction(line: &[u8], k: usize) -> Direction {
    if letter(line, k) == b'N' {
        Direction::Negative
    } else {
        Direction::Positive
    }
}

pub(crate) fn interval(line: &[u8], k: usize) -> Interval {
    interval_of(count(line, k, 4) as u32)
}

// The refusal with a number, if there is one.
pub(crate) fn refusal(line: &[u8], k: usize) -> Result<(), Refusal> {
    let number = byte(line, k).min(22);
    match REFUSALS.iter().find(|refusal| refusal.number() == number) {
        Some(refusal) => Err(*refusal),
        None => Ok(()),
    }
}

// How long a buffer a printing call is lent whose text has so many bytes.
pub(crate) fn lent(line: &[u8], text: usize) -> usize
    ensures { result ≤ 16384 }
{
    let bytes = number(line, 2);
    let base = if letter(line, 1) == b'T' {
        text as u64
    } else {
        0
    };
    let longest = base.wrapping_add(positive_part(bytes));
    longest.saturating_sub(negative_part(bytes)).min(16_384) as usize
}
