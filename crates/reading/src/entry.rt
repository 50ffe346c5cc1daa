// One line of a recording, of which any bytes may come, without its LF: the header and the end as a settlement has them, and the line of a recorded sample.
ghost use Rattle.std.specs.Prelude.{◌≡◌};
ghost use Rattle.fields.specs.Fields.{fields};
ghost use Rattle.reading.specs.Entry.{entry_kind_of, entry_by, recorded_of, entry_of};

use crate::parted::Parted;
use crate::{Line, end_from, header_from};
use vocabulary::header::Header;
use vocabulary::recorded::Recorded;
use vocabulary::sample::Sample;

// What a line of a recording says.
#[derive(Clone, Copy)]
pub enum Entry {
    Header(Header),
    Recorded(Recorded),
    End,
    Malformed,
}

// What kind of line of a recording a first field begins.
#[derive(Clone, Copy)]
pub enum EntryKind {
    Header,
    Recorded,
    End,
    Unknown,
}

fn entry_kind(field: &[u8]) -> EntryKind
    ensures { result ≡ entry_kind_of field.now }
{
    match field {
        b"G" => EntryKind::Recorded,
        b"D" => EntryKind::Header,
        b"E" => EntryKind::End,
        _ => EntryKind::Unknown,
    }
}

// What a line of a settlement says in a recording, which has its headers and its ends alone.
fn entry_by(line: Line) -> Entry
    ensures { result ≡ entry_by line }
{
    match line {
        Line::Header(header) => Entry::Header(header),
        Line::End => Entry::End,
        _ => Entry::Malformed,
    }
}

// Its fields, if there are as many: one of another form makes the line malformed.
fn recorded_from(line: Parted) -> Entry
    ensures { result ≡ recorded_of (fields line.entry.line.now) }
{
    if line.count() != 4 {
        return Entry::Malformed;
    }
    let Some(second) = line.number(1) else {
        return Entry::Malformed;
    };
    let Some(setpoint) = line.number(2) else {
        return Entry::Malformed;
    };
    let Some(actual) = line.number(3) else {
        return Entry::Malformed;
    };
    Entry::Recorded(Recorded {
        second,
        sample: Sample { setpoint, actual },
    })
}

// A line of 81 bytes stands for any that is longer.
pub fn read_entry(line: &[u8]) -> Entry
    ensures { result ≡ entry_of line.now }
{
    if 80 < line.len() {
        return Entry::Malformed;
    }
    let line = Parted::of(line);
    match entry_kind(line.field(0)) {
        EntryKind::Header => entry_by(header_from(line)),
        EntryKind::Recorded => recorded_from(line),
        EntryKind::End => entry_by(end_from(line)),
        EntryKind::Unknown => Entry::Malformed,
    }
}
