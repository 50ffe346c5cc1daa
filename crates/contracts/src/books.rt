// The contract lists of both directions. An identifier stands in one of them at most, so they are looked at together.
ghost use Rattle.std.specs.Prelude.{◌≡◌};
ghost use Rattle.vocabulary.specs.Direction.{mirror_of};
ghost use Rattle.contracts.specs.Books.{book_in, with_book, no_books, books_refusal, with_contract_in};

use crate::book::Book;
use vocabulary::contract::Contract;
use vocabulary::direction::Direction;
use vocabulary::refusal::Refusal;

// A type of its own beside the two sheets of a quarter hour: they share no method.
#[derive(Clone, Copy)]
pub struct Books {
    positive: Book,
    negative: Book,
}

fn opposite(direction: Direction) -> Direction
    ensures { result ≡ mirror_of direction }
{
    match direction {
        Direction::Positive => Direction::Negative,
        Direction::Negative => Direction::Positive,
    }
}

impl Books {
    pub fn new() -> Books
        ensures { result ≡ no_books }
    {
        Books {
            positive: Book::new(),
            negative: Book::new(),
        }
    }

    // The contracts of a direction.
    pub fn book(self, direction: Direction) -> Book
        ensures { result ≡ book_in direction self }
    {
        match direction {
            Direction::Positive => self.positive,
            Direction::Negative => self.negative,
        }
    }

    // Both lists, with another one in a direction.
    fn with_book(mut self, direction: Direction, book: Book) -> Books
        ensures { result ≡ with_book direction book self }
    {
        match direction {
            Direction::Positive => self.positive = book,
            Direction::Negative => self.negative = book,
        }
        self
    }

    // Why one contract more is refused: what its direction's list says, and whether the other has its identifier.
    pub fn refusal(self, contract: Contract, identifier: &[u8]) -> Result<(), Refusal>
        ensures { result ≡ books_refusal self contract identifier.now }
    {
        let own = self.book(contract.direction);
        let other = self.book(opposite(contract.direction));
        own.refusal(other, identifier, contract.award, contract.price)
    }

    // One contract more in its direction, with its identifier beside it; a full list stays as it is.
    pub fn with(self, contract: Contract, identifier: &[u8]) -> Books
        ensures { result ≡ with_contract_in self contract identifier.now }
    {
        let own = self.book(contract.direction);
        let longer = own.with(identifier, contract.award, contract.price);
        self.with_book(contract.direction, longer)
    }
}
