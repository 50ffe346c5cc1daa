// Which U line is wanted next: a quarter hour has as many as there are contracts, those of P before those of N.
ghost use Rattle.std.specs.Prelude.{◌≡◌, ◌+◌, ◌^◌, ◌<◌, ◌≤◌};
ghost use Rattle.vocabulary.specs.Refusals.{number_of};
ghost use Rattle.judging.specs.Wanted.{wanted_in, place_of, is_quarter, says_place, is_wanted, share_ground, early_ground};

use contracts::books::Books;
use contracts::identifier::well_formed;
use reading::share::Share;
use settlement::run::Run;
use vocabulary::direction::Direction;
use vocabulary::refusal::Refusal;

// What a U line has to say: the quarter hour, the direction, and the contract by its place in its list.
#[derive(Clone, Copy)]
pub struct Place {
    quarter: usize,
    direction: Direction,
    contract: usize,
}

// By the number of U lines before it.
fn place_of(positives: usize, negatives: usize, given: usize) -> Place
    requires { (0 < positives + negatives) × (positives + negatives ≤ 64) }
    ensures { result ≡ place_of positives negatives given }
{
    let all = positives + negatives;
    let quarter = given / all;
    let rest = given % all;
    if rest < positives {
        return Place {
            quarter,
            direction: Direction::Positive,
            contract: rest,
        };
    }
    Place {
        quarter,
        direction: Direction::Negative,
        contract: rest - positives,
    }
}

fn is_quarter(said: i32, quarter: usize) -> bool
    ensures { result ≡ is_quarter said quarter }
{
    usize::try_from(said) == Ok(quarter)
}

fn says_place(books: Books, place: Place, share: Share, identifier: &[u8]) -> bool
    ensures { result ≡ says_place books place share identifier.now }
{
    is_quarter(share.quarter, place.quarter)
        && share.direction == place.direction
        && books
            .book(place.direction)
            .names(place.contract, identifier)
}

// How many U lines so many quarter hours have.
pub fn wanted(books: Books, quarters: u8) -> usize
    ensures { result ≡ wanted_in books quarters }
{
    let positives = books.book(Direction::Positive).held();
    let negatives = books.book(Direction::Negative).held();
    usize::from(quarters) * (positives + negatives)
}

fn is_wanted(books: Books, quarters: u8, given: usize, share: Share, identifier: &[u8]) -> bool
    ensures { result ≡ is_wanted books quarters given share identifier.now }
{
    if wanted(books, quarters) <= given {
        return false;
    }
    let positives = books.book(Direction::Positive).held();
    let negatives = books.book(Direction::Negative).held();
    let place = place_of(positives, negatives, given);
    says_place(books, place, share, identifier)
}

// Why a U line is refused after E, where so many came before it.
pub fn share_refusal(
    books: Books,
    quarters: u8,
    given: usize,
    share: Share,
    identifier: &[u8],
) -> Result<(), Refusal>
    ensures is { result ≡ share_ground books quarters given share identifier.now }
    ensures few { number_of result ≡ 0 → given < 2 ^ 32 }
{
    if !well_formed(identifier) {
        return Err(Refusal::BadIdentifier);
    }
    if !is_wanted(books, quarters, given, share, identifier) {
        return Err(Refusal::MisplacedShare);
    }
    Ok(())
}

// Why one is refused before E: it always is.
pub fn early_refusal(run: Run, identifier: &[u8]) -> Result<(), Refusal>
    ensures { result ≡ early_ground run identifier.now }
{
    if !well_formed(identifier) {
        return Err(Refusal::BadIdentifier);
    }
    if run.lacks() {
        return Err(Refusal::BadBlockLength);
    }
    Err(Refusal::MisplacedShare)
}
