// How far an input is read.
ghost use Rattle.std.specs.Prelude.{◌≡◌};
ghost use Rattle.vocabulary.specs.Stage.{closed_at, open_at};

// Before the header; while its lines are taken; after the end or a refusal, when nothing is read any more.
#[derive(Clone, Copy, Debug, PartialEq, Eq)]
pub enum Stage {
    Empty,
    Open,
    Closed,
}

impl Stage {
    pub fn is_closed(self) -> bool
        ensures { result ≡ closed_at self }
    {
        matches!(self, Stage::Closed)
    }

    pub fn is_open(self) -> bool
        ensures { result ≡ open_at self }
    {
        matches!(self, Stage::Open)
    }
}
