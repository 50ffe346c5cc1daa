// Text, written into a lent buffer from a place on. Each function answers the place after its text. What lies past the
// buffer's end is not written, so no buffer is too short for a call, and the same call on one byte measures a text.
// Buffer and place stay two parameters: a struct of both was tried, and each function then promised besides that it still holds the same buffer.
#![tactic(auto)]

ghost use Rattle.std.specs.Prelude.{◌*◌, ◌≤◌, ◌<◌, [], ◌∷◌, ◌++◌, map, length};
ghost use Rattle.print.specs.Decimal.{two_digits, four_digits, digits, number_text, date_text, hyphen, tab, line_end};
ghost use Rattle.print.specs.Print.{Wrote};
ghost use Rattle.print.specs.Fields.{tabbed};

use arithmetic::date::Date;
use arithmetic::money::Cents;

// The last place that there is a number for stands for all that lie past it: no buffer reaches it.
pub fn put(buf: &mut [u8], at: usize, byte: u8) -> usize
    ensures { Wrote buf.old at (byte ∷ []) result buf.new }
{
    if at < buf.len() {
        buf[at] = byte;
    }
    at.saturating_add(1)
}

pub fn put_bytes(buf: &mut [u8], at: usize, bytes: &[u8]) -> usize
    ensures { Wrote buf.old at bytes.now result buf.new }
{
    let mut next = at;
    for byte in bytes {
        next = put(buf, next, *byte);
    }
    next
}

pub fn put_tab(buf: &mut [u8], at: usize) -> usize
    ensures { Wrote buf.old at tab result buf.new }
{
    put(buf, at, b'\t')
}

pub fn put_line_end(buf: &mut [u8], at: usize) -> usize
    ensures { Wrote buf.old at line_end result buf.new }
{
    put(buf, at, b'\n')
}

fn put_two(buf: &mut [u8], at: usize, n: u16) -> usize
    ensures { Wrote buf.old at (two_digits n) result buf.new }
{
    let ones = put(buf, at, b'0' + (n / 10 % 10) as u8);
    put(buf, ones, b'0' + (n % 10) as u8)
}

fn put_four(buf: &mut [u8], at: usize, n: u16) -> usize
    ensures { Wrote buf.old at (four_digits n) result buf.new }
{
    let low = put_two(buf, at, n / 100);
    put_two(buf, low, n)
}

// A number of four digits at most.
fn put_short(buf: &mut [u8], at: usize, n: u16) -> usize
    requires { n < 10000 }
    ensures { Wrote buf.old at (digits n) result buf.new }
{
    if n < 10 {
        put(buf, at, b'0' + n as u8)
    } else if n < 100 {
        put_two(buf, at, n)
    } else if n < 1_000 {
        let tens = put(buf, at, b'0' + (n / 100) as u8);
        put_two(buf, tens, n)
    } else {
        put_four(buf, at, n)
    }
}

// A number of any length, four digits at a time.
fn put_long(buf: &mut [u8], at: usize, n: u64) -> usize
    ensures { Wrote buf.old at (digits n) result buf.new }
{
    if n < 10_000 {
        return put_short(buf, at, n as u16);
    }
    let low = put_long(buf, at, n / 10_000);
    put_four(buf, low, (n % 10_000) as u16)
}

// A number that is never negative, in as many digits as it needs. Most figures of a sheet need one, so it comes first.
pub fn put_count(buf: &mut [u8], at: usize, n: u64) -> usize
    ensures { Wrote buf.old at (digits n) result buf.new }
{
    if n < 10 {
        put(buf, at, b'0' + n as u8)
    } else {
        put_long(buf, at, n)
    }
}

pub fn put_number(buf: &mut [u8], at: usize, n: i64) -> usize
    ensures { Wrote buf.old at (number_text n) result buf.new }
{
    let size = n.unsigned_abs();
    if n < 0 {
        let first = put(buf, at, b'-');
        put_count(buf, first, size)
    } else {
        put_count(buf, at, size)
    }
}

// The part of a date that follows another.
fn put_part(buf: &mut [u8], at: usize, n: u8) -> usize
    ensures { Wrote buf.old at (hyphen ++ two_digits n) result buf.new }
{
    let next = put(buf, at, b'-');
    put_two(buf, next, u16::from(n))
}

// Always ten bytes: of a year above 9999, and of a month or a day above 99, the last digits.
pub fn put_date(buf: &mut [u8], at: usize, date: Date) -> usize
    ensures { Wrote buf.old at (date_text date) result buf.new }
{
    let month = put_four(buf, at, date.year);
    let day = put_part(buf, month, date.month);
    put_part(buf, day, date.day)
}

// A field of a line: its tab, and a number that is never negative.
pub fn put_field(buf: &mut [u8], at: usize, n: u64) -> usize
    ensures wrote { Wrote buf.old at (tab ++ digits n) result buf.new }
    ensures short { length (digits n) ≤ 20 }
{
    let field = put_tab(buf, at);
    put_count(buf, field, n)
}

pub fn put_fields(buf: &mut [u8], at: usize, numbers: &[u64]) -> usize
    ensures wrote { Wrote buf.old at (tabbed (map digits numbers.now)) result buf.new }
    ensures short { length (tabbed (map digits numbers.now)) ≤ 21 * length numbers.now }
{
    let mut next = at;
    for number in numbers {
        next = put_field(buf, next, *number);
    }
    next
}

// A field that is an amount of money.
pub fn put_money(buf: &mut [u8], at: usize, money: Cents) -> usize
    ensures wrote { Wrote buf.old at (tab ++ number_text money.0) result buf.new }
    ensures short { length (number_text money.0) ≤ 20 }
{
    let field = put_tab(buf, at);
    put_number(buf, field, money.0)
}
