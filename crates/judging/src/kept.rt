// What is kept of a quarter hour until its shares come: the gaps and the surplus of each direction, by the figures of its sheets.
ghost use Rattle.std.specs.Prelude.{◌≡◌, List, ℤ, set};
ghost use Rattle.judging.specs.Kept.{gap_in, gap_on, row_of, keeping, kept_in, SameLists, kept_of, with_row, with_share};

use quarter::sheet::{Figures, Line, Sheet, Sheets};
use vocabulary::direction::Direction;
use vocabulary::refusal::Refusal;

// The lists that the caller lends. Both directions of a quarter hour have a row of gaps and a surplus, and each U line a share.
// Three lists, since there are as many shares as U lines, whatever the rows. Each call promises besides that the same lists are lent: only so the caller knows its own.
#[derive(Drop)]
pub struct Kept<'a> {
    pub gaps: &'a mut [[u32; 32]],
    pub surpluses: &'a mut [u32],
    pub shares: &'a mut [i32],
}

// The same lists for whoever only reads them.
#[derive(Clone, Copy)]
pub struct Lists<'a> {
    pub gaps: &'a [[u32; 32]],
    pub surpluses: &'a [u32],
    pub shares: &'a [i32],
}

// A contract's gap.
fn gap(figures: Figures) -> u32
    ensures { result ≡ gap_in figures }
{
    let cap = figures.setpoint.0.saturating_sub(figures.under_delivery.0);
    let capped = cap.min(figures.acceptance.0);
    cap.saturating_sub(capped).min(figures.shortfall.0)
}

fn gap_on(line: Line) -> u32
    ensures { result ≡ gap_on line }
{
    gap(line.figures)
}

// Where a direction of a quarter hour is kept.
pub(crate) fn row_of(quarter: u8, direction: Direction) -> usize
    ensures { result ≡ row_of quarter direction }
{
    let row = usize::from(quarter) * 2;
    match direction {
        Direction::Positive => row,
        Direction::Negative => row + 1,
    }
}

// A direction of a quarter hour. A list is written by its index: after a `get_mut` no proof knows the elements of a slice.
fn keep_row(gaps: &mut [[u32; 32]], surpluses: &mut [u32], row: usize, sheet: Sheet)
    ensures { (shares : List ℤ) → with_row (keeping gaps.old surpluses.old shares) row sheet
        ≡ keeping gaps.new surpluses.new shares }
{
    if row < surpluses.len() {
        surpluses[row] = sheet.pool.surplus.0;
    }
    if row < gaps.len() {
        gaps[row] = sheet.lines.map(gap_on);
    }
}

// Both directions of a quarter hour that was taken; nothing is kept where it was refused. It takes the two lists that it writes.
pub fn keep(
    gaps: &mut [[u32; 32]],
    surpluses: &mut [u32],
    refusal: Result<(), Refusal>,
    quarter: u8,
    sheets: Sheets,
)
    ensures { (shares : List ℤ) → kept_of refusal (keeping gaps.old surpluses.old shares) quarter sheets
        ≡ keeping gaps.new surpluses.new shares }
{
    if refusal.is_ok() {
        let above = row_of(quarter, Direction::Positive);
        let below = row_of(quarter, Direction::Negative);
        keep_row(gaps, surpluses, above, sheets.positive);
        keep_row(gaps, surpluses, below, sheets.negative);
    }
}

// The share of a U line, by the number of U lines before it.
pub fn put_share(shares: &mut [i32], at: usize, kwh: i32)
    ensures { shares.new ≡ set shares.old at kwh }
{
    if at < shares.len() {
        shares[at] = kwh;
    }
}

// The same for whoever has all three lists.
impl Kept<'_> {
    pub fn keep(&mut self, refusal: Result<(), Refusal>, quarter: u8, sheets: Sheets)
        ensures same { SameLists self.old self.new }
        ensures is { kept_in self.new ≡ kept_of refusal (kept_in self.old) quarter sheets }
    {
        keep(self.gaps, self.surpluses, refusal, quarter, sheets)
    }

    pub fn put_share(&mut self, at: usize, kwh: i32)
        ensures same { SameLists self.old self.new }
        ensures is { kept_in self.new ≡ with_share (kept_in self.old) at kwh }
    {
        put_share(self.shares, at, kwh)
    }
}
