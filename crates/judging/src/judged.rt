// The verdict on the shares that were said: the quarter hours in order, P before N, until one does not hold.
ghost use Rattle.std.specs.Prelude.{◌≡◌, ◌≤◌, ◌^◌};
ghost use Rattle.judging.specs.Kept.{lists_in};
ghost use Rattle.judging.specs.Judged.{shares_before, shares_from, holds_at, holds_in, judged_of};

use crate::kept::{Lists, row_of};
use crate::wanted::wanted;
use arithmetic::energy::Kwh;
use contracts::books::Books;
use shares::acceptable::acceptable;
use sheets::verdict::Verdict;
use vocabulary::direction::Direction;

// So many shares from a place on, with zeros after them.
fn shares_from(shares: &[i32], from: usize, n: usize) -> [i32; 32]
    requires { (from ≤ 2 ^ 32) × (n ≤ 32) }
    ensures { result ≡ shares_from from n shares.now }
{
    let mut out = [0i32; 32];
    let rest = &shares[from.min(shares.len())..];
    let held = n.min(rest.len());
    out[..held].copy_from_slice(&rest[..held]);
    out
}

// What is kept at a row, nothing past the lists' ends, against so many shares from a place on.
fn holds_at(lists: Lists, row: usize, from: usize, n: usize) -> bool
    requires { (from ≤ 2 ^ 32) × (n ≤ 32) }
    ensures { result ≡ holds_at (lists_in lists.entry) row from n }
{
    let gaps = lists.gaps.get(row).copied().unwrap_or([0; 32]);
    let surplus = lists.surpluses.get(row).copied().unwrap_or(0);
    acceptable(
        gaps.map(Kwh),
        Kwh(surplus),
        shares_from(lists.shares, from, n),
    )
}

// How many shares stand before its own.
fn shares_before(books: Books, quarter: u8, direction: Direction) -> usize
    ensures is { result ≡ shares_before books quarter direction }
    ensures few { result ≤ 2 ^ 32 }
{
    let from = wanted(books, quarter);
    match direction {
        Direction::Positive => from,
        Direction::Negative => from + books.book(Direction::Positive).held(),
    }
}

// Whether its shares hold.
fn holds_in(books: Books, quarter: u8, direction: Direction, lists: Lists) -> bool
    ensures { result ≡ holds_in books (lists_in lists.entry) quarter direction }
{
    let row = row_of(quarter, direction);
    let from = shares_before(books, quarter, direction);
    let held = books.book(direction).held();
    holds_at(lists, row, from, held)
}

// P before N, each with its own answer.
pub fn judged(books: Books, quarters: u8, lists: Lists) -> Verdict
    ensures { result ≡ judged_of books (lists_in lists.entry) quarters }
{
    for quarter in 0..quarters {
        if !holds_in(books, quarter, Direction::Positive, lists) {
            return Verdict::Failing {
                quarter,
                direction: Direction::Positive,
            };
        }
        if !holds_in(books, quarter, Direction::Negative, lists) {
            return Verdict::Failing {
                quarter,
                direction: Direction::Negative,
            };
        }
    }
    Verdict::Accepted(quarters)
}
