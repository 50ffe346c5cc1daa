// The lines that are printed for a recording: a mark for what is dropped or filled in, and the samples. Each is put as `print` puts text.
ghost use Rattle.std.specs.Prelude.{◌-◌, ◌*◌, ◌≤◌, [], ◌∷◌, pos};
ghost use Rattle.sheets.specs.Putting.{WroteUpTo, FieldsUpTo};
ghost use Rattle.mending.specs.Mending.{seconds_of, sample_text, mark_text, filled, item_text, filled_from, items_text};

use crate::grid::{Grid, seconds_of};
use print::{put, put_line_end, put_tab};
use sheets::put_signed;
use vocabulary::sample::Sample;

// Buffer and place go side by side, as in `print`, which says why.
fn put_letter(buf: &mut [u8], at: usize, letter: u8) -> usize
    ensures { FieldsUpTo 2 buf.old at [] ((letter ∷ []) ∷ []) result buf.new }
{
    let field = put_tab(buf, at);
    put(buf, field, letter)
}

// The X line: a second, and O, T or M. The letter itself, since it is what is printed.
pub(crate) fn put_mark(buf: &mut [u8], at: usize, second: i64, kind: u8) -> usize
    ensures { WroteUpTo 25 buf.old at (mark_text second kind) result buf.new }
{
    let field = put(buf, at, b'X');
    let letter = put_signed(buf, field, second);
    let end = put_letter(buf, letter, kind);
    put_line_end(buf, end)
}

// The S line.
pub(crate) fn put_sample(buf: &mut [u8], at: usize, sample: Sample) -> usize
    ensures { WroteUpTo 44 buf.old at (sample_text sample) result buf.new }
{
    let first = put(buf, at, b'S');
    let second = put_signed(buf, first, i64::from(sample.setpoint));
    let end = put_signed(buf, second, i64::from(sample.actual));
    put_line_end(buf, end)
}

// A missing sample: its mark, and the sample that stands for it.
fn put_filled(buf: &mut [u8], at: usize, grid: Grid, sample: Sample, place: u32) -> usize
    ensures { WroteUpTo 69 buf.old at (item_text (filled (place * seconds_of grid) sample)) result buf.new }
{
    let second = seconds_of(grid, place);
    let line = put_mark(buf, at, second as i64, b'M');
    put_sample(buf, line, sample)
}

// Those from a place up to another.
pub(crate) fn put_missing(
    buf: &mut [u8],
    at: usize,
    grid: Grid,
    sample: Sample,
    from: u64,
    until: u32,
) -> usize
    requires { until - from ≤ 60 }
    ensures { WroteUpTo 4140 buf.old at (items_text (filled_from grid sample from (until - from))) result buf.new }
{
    let mut next = at;
    for place in from..u64::from(until) {
        next = put_filled(buf, next, grid, sample, place as u32);
    }
    next
}
