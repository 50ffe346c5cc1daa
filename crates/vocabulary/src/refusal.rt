// Why a call or a line is refused: the numbers of docs/RULES.md, 'Refusals'.
ghost use Rattle.std.specs.Prelude.{◌≡◌};
ghost use Rattle.vocabulary.specs.Refusals.{number_of};

#[derive(Clone, Copy, Debug, PartialEq, Eq)]
pub enum Refusal {
    WrongMoment,
    BadInterval,
    BadLot,
    BadDate,
    BadQuarters,
    TooManyContracts,
    BadIdentifier,
    IdentifierTaken,
    BadAward,
    AwardsTooHigh,
    BadPrice,
    PriceTooLow,
    BadPower,
    BadLine,
    NoEnd,
    BufferTooShort,
    BadBlockLength,
    BadBlockValue,
    NoFirstSample,
    HoleTooLong,
    SecondsOutOfOrder,
    MisplacedShare,
}

impl Refusal {
    // Written out: each number is that of the table, whatever the order of the names.
    pub fn number(self) -> u8
        ensures { result ≡ number_of (Err self) }
    {
        match self {
            Refusal::WrongMoment => 1,
            Refusal::BadInterval => 2,
            Refusal::BadLot => 3,
            Refusal::BadDate => 4,
            Refusal::BadQuarters => 5,
            Refusal::TooManyContracts => 6,
            Refusal::BadIdentifier => 7,
            Refusal::IdentifierTaken => 8,
            Refusal::BadAward => 9,
            Refusal::AwardsTooHigh => 10,
            Refusal::BadPrice => 11,
            Refusal::PriceTooLow => 12,
            Refusal::BadPower => 13,
            Refusal::BadLine => 14,
            Refusal::NoEnd => 15,
            Refusal::BufferTooShort => 16,
            Refusal::BadBlockLength => 17,
            Refusal::BadBlockValue => 18,
            Refusal::NoFirstSample => 19,
            Refusal::HoleTooLong => 20,
            Refusal::SecondsOutOfOrder => 21,
            Refusal::MisplacedShare => 22,
        }
    }
}

// The number of what is said of a call or a line: 0 where nothing is refused.
pub fn number(ruling: Result<(), Refusal>) -> u8
    ensures { result ≡ number_of ruling }
{
    match ruling {
        Ok(()) => 0,
        Err(refusal) => refusal.number(),
    }
}
