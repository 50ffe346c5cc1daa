// U lines, which say shares that somebody else made: for a program that reads them beside the lines of an input that is settled.
ghost use Rattle.std.specs.Prelude.{◌≡◌};
ghost use Rattle.fields.specs.Fields.{fields};
ghost use Rattle.reading.specs.Share.{share_of, whose_of, asked_of};

use crate::parted::Parted;
use crate::{Line, direction_of, is_letter, read};
use vocabulary::direction::Direction;

// The quarter hour from 0, the direction, and the share in kWh. Whose share it is is kept beside it: see `whose`.
#[derive(Clone, Copy)]
pub struct Share {
    pub quarter: i32,
    pub direction: Direction,
    pub kwh: i32,
}

// What a line says: that of an input that is settled, or a share.
#[derive(Clone, Copy)]
pub enum Asked {
    Settling(Line),
    Share(Share),
}

// Its fields, if there are as many: one of another form makes the line malformed.
fn share_from(line: Parted) -> Asked
    ensures { result ≡ share_of (fields line.entry.line.now) }
{
    if line.count() != 5 {
        return Asked::Settling(Line::Malformed);
    }
    let Some(quarter) = line.number(1) else {
        return Asked::Settling(Line::Malformed);
    };
    let Some(direction) = direction_of(line.field(2)) else {
        return Asked::Settling(Line::Malformed);
    };
    let Some(kwh) = line.number(4) else {
        return Asked::Settling(Line::Malformed);
    };
    Asked::Share(Share {
        quarter,
        direction,
        kwh,
    })
}

// The bytes of the identifier on a U line, whatever they are: empty where a line has not so many fields.
pub fn whose(line: &[u8]) -> &[u8]
    ensures { result.now ≡ whose_of line.now }
{
    Parted::of(line).field(3)
}

// A line of 81 bytes stands for any that is longer.
pub fn read_asked(line: &[u8]) -> Asked
    ensures { result ≡ asked_of line.now }
{
    if 80 < line.len() {
        return Asked::Settling(Line::Malformed);
    }
    let parted = Parted::of(line);
    if is_letter(parted.field(0), b'U') {
        return share_from(parted);
    }
    Asked::Settling(read(line))
}
