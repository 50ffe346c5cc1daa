// What the interval fixes: the samples of a quarter hour, and how far back each window reaches.
ghost use Rattle.std.specs.Prelude.{◌≡◌};
ghost use Rattle.vocabulary.specs.Interval.{windows_of};

// A setpoint comes every 1, 3 or 4 seconds.
#[derive(Clone, Copy, Debug, PartialEq, Eq)]
pub enum Interval {
    One,
    Three,
    Four,
}

// The seconds of an interval and the samples of a quarter hour; the near window goes from 0 to `near` samples back, the spread window from
// `from` to `to`.
#[derive(Clone, Copy, Debug, PartialEq, Eq)]
pub struct Windows {
    pub seconds: u16,
    pub samples: usize,
    pub near: usize,
    pub from: usize,
    pub to: usize,
}

impl Interval {
    pub fn windows(self) -> Windows
        ensures { result ≡ windows_of self }
    {
        match self {
            Interval::One => Windows {
                seconds: 1,
                samples: 900,
                near: 31,
                from: 31,
                to: 301,
            },
            Interval::Three => Windows {
                seconds: 3,
                samples: 300,
                near: 10,
                from: 11,
                to: 100,
            },
            Interval::Four => Windows {
                seconds: 4,
                samples: 225,
                near: 7,
                from: 8,
                to: 75,
            },
        }
    }
}
