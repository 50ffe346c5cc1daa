// A line with the places of its fields, and what the fields say.
ghost use Rattle.std.specs.Prelude.{◌≡◌, ◌<◌, length};
ghost use Rattle.fields.specs.Fields.{fields, field_at};
ghost use Rattle.fields.specs.Numbers.{number_of};
ghost use Rattle.fields.specs.Split.{split_of};

use fields::number::number_of;
use fields::split::{Split, split_of};

#[derive(Clone, Copy)]
pub(crate) struct Parted<'a> {
    line: &'a [u8],
    split: Split,
    ghost its_own: { split ≡ split_of line.now },
}

impl<'a> Parted<'a> {
    pub(crate) fn of(line: &'a [u8]) -> Parted<'a>
        ensures { result.line.now ≡ line.now }
    {
        Parted {
            line,
            split: split_of(line),
        }
    }

    pub(crate) fn count(self) -> usize
        ensures { result ≡ length (fields self.entry.line.now) }
    {
        self.split.count
    }

    // The fields are counted from 0, which is the letter.
    pub(crate) fn field(self, k: usize) -> &'a [u8]
        requires { k < 16 }
        ensures { result.now ≡ field_at k (fields self.entry.line.now) }
    {
        self.split.field(self.line, k)
    }

    pub(crate) fn number(self, k: usize) -> Option<i32>
        requires { k < 16 }
        ensures { result ≡ number_of (field_at k (fields self.entry.line.now)) }
    {
        number_of(self.field(k))
    }
}
