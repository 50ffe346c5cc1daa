// A run without the powers of its samples: what is handed on while these lie in two arrays of whoever reads them. With them a run is three times as long,
// and it is copied some ten times for each quarter hour. They stay two arrays: channel and claims go along the setpoints and the actuals apart.
ghost use Rattle.std.specs.Prelude.{◌≡◌, List, ◌<◌, ℤ};
ghost use Rattle.quarter.specs.Quarter.{quarter_held};
ghost use Rattle.settlement.specs.Bare.{whole_of, bare_after, bare_taken_of};
ghost use Rattle.settlement.specs.Many.{room_of};
ghost use Rattle.settlement.specs.Run.{taken_of};

use crate::grounds::{places, take_refusal};
use crate::load::Load;
use crate::plan::Plan;
use crate::run::Run;
use channel::Channel;
use contracts::books::Books;
use quarter::hour::{Settled, quarter_hour, samples_of};
use quarter::sheet::{Sheets, no_sheets};
use records::account::Account;
use records::tape::Tape;
use vocabulary::refusal::Refusal;

// Of the samples at hand it knows how many count. Run does not hold a Bare: the definitions name each part of a run.
#[derive(Clone, Copy)]
pub struct Bare {
    pub(crate) plan: Plan,
    pub(crate) books: Books,
    pub(crate) past: Channel,
    pub(crate) load: Load,
    pub filled: usize,
    pub(crate) account: Account,
}

// What taking answers, as for a run with its samples. A type of its own beside Taken: promises name each.
#[derive(Clone, Copy)]
pub struct BareTaken {
    pub bare: Bare,
    pub refusal: Result<(), Refusal>,
    pub quarter: u8,
    pub sheets: Sheets,
}

impl Bare {
    // With the powers of its samples a run again.
    pub fn whole(self, setpoints: &[i32; 900], actuals: &[i32; 900]) -> Run
        ensures { result ≡ whole_of self setpoints.now actuals.now }
    {
        Run {
            plan: self.plan,
            books: self.books,
            past: self.past,
            load: self.load,
            tape: Tape {
                setpoints: *setpoints,
                actuals: *actuals,
                filled: self.filled,
            },
            account: self.account,
        }
    }

    // How many samples the quarter hour at hand still takes, whatever their powers are.
    pub fn room(self) -> usize
        ensures { (sp ac : List ℤ) → result ≡ room_of (whole_of self sp ac) }
    {
        places(
            self.load.left,
            samples_of(self.past),
            self.filled,
            self.account.taken,
            self.plan.quarters,
        )
    }

    // The quarter hour at hand.
    fn settled(self, setpoints: &[i32; 900], actuals: &[i32; 900]) -> Settled
        ensures { result ≡ quarter_held self.past setpoints.now actuals.now self.books }
    {
        quarter_hour(self.past, *setpoints, *actuals, self.books)
    }

    // After a quarter hour: the channel led on, its fees and penalties added, room for the next samples.
    fn after(mut self, quarter: Settled) -> Bare
        requires { self.account.taken < 255 }
        ensures { result ≡ bare_after self quarter }
    {
        let taken = self.account.taken + 1;
        self.past = quarter.channel;
        self.filled = 0;
        self.account = self.account.with_sheets(quarter.sheets);
        self.account.taken = taken;
        self
    }

    // The finished quarter hour's figures.
    pub fn take(self, setpoints: &[i32; 900], actuals: &[i32; 900]) -> BareTaken
        ensures { result ≡ bare_taken_of (taken_of (whole_of self setpoints.now actuals.now)) }
    {
        let quarter = self.account.taken;
        let samples = samples_of(self.past);
        let refusal = take_refusal(samples, self.filled, quarter, self.plan.quarters);
        if refusal.is_err() {
            return BareTaken {
                bare: self,
                refusal,
                quarter,
                sheets: no_sheets(),
            };
        }
        let settled = self.settled(setpoints, actuals);
        BareTaken {
            bare: self.after(settled),
            refusal,
            quarter,
            sheets: settled.sheets,
        }
    }
}
