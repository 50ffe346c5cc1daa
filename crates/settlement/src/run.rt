// A run: one stretch of quarter hours with its contracts. It goes into each call by value and comes back, with the refusal.
ghost use Rattle.std.specs.Prelude.{◌≡◌};
ghost use Rattle.vocabulary.specs.Refusals.{allowed};
ghost use Rattle.records.specs.Account.{no_account};
ghost use Rattle.records.specs.Tape.{no_tape, longer};
ghost use Rattle.settlement.specs.Bare.{bare_of};
ghost use Rattle.settlement.specs.Many.{room_of};
ghost use Rattle.settlement.specs.Run.{fresh_run, no_run, run_of, opened_of, untouched, lacks_setpoints, with_setpoint, with_bounds_of};
ghost use Rattle.settlement.specs.Run.{with_setpoint_of, contract_wrong, contract_ground, contracted_of, sample_ground, sampled_of, taken_of, ended_of, heading_of};

use crate::bare::Bare;
use crate::grounds::{before_samples, end_refusal, open_refusal};
use crate::load::{Load, begun_with, no_load};
use crate::plan::{Plan, interval_of, lot_meant, plan_of};
use arithmetic::date::Date;
use arithmetic::money::Cents;
use arithmetic::whole::above_zero;
use channel::Channel;
use contracts::books::Books;
use quarter::sheet::Sheets;
use records::account::Account;
use records::tape::Tape;
use vocabulary::acceptance::Bounds;
use vocabulary::contract::Contract;
use vocabulary::direction::Direction;
use vocabulary::header::Header;
use vocabulary::interval::Interval;
use vocabulary::refusal::Refusal;
use vocabulary::sample::Sample;

// The past is the channel as it stands where the quarter hour at hand began, and the load tells how much of a block it still lacks; the tape has that
// quarter hour's samples.
#[derive(Clone, Copy)]
pub struct Run {
    pub(crate) plan: Plan,
    pub(crate) books: Books,
    pub(crate) past: Channel,
    pub(crate) load: Load,
    pub(crate) tape: Tape,
    pub(crate) account: Account,
}

// What a call answers; the run of a refused call is the one that came in.
#[derive(Clone, Copy)]
pub struct Answer {
    pub run: Run,
    pub refusal: Result<(), Refusal>,
}

// What taking answers: the quarter hour's number from 0, and its figures in both directions; nothing in them where it is refused.
#[derive(Clone, Copy)]
pub struct Taken {
    pub run: Run,
    pub refusal: Result<(), Refusal>,
    pub quarter: u8,
    pub sheets: Sheets,
}

// What ending answers: the quarter hours taken, the sums of their fees and penalties, and the channel, whose block the next run may start from.
#[derive(Clone, Copy)]
pub struct Ended {
    pub run: Run,
    pub refusal: Result<(), Refusal>,
    pub quarters: u8,
    pub fees: Cents,
    pub penalties: Cents,
    pub past: Channel,
}

// What a sheet's head says: the day, the interval and the lot that was used.
#[derive(Clone, Copy)]
pub struct Heading {
    pub date: Date,
    pub interval: Interval,
    pub lot: u32,
}

// No sample yet. One function for each definition of that name: in one piece `fresh` would be too long.
fn no_tape() -> Tape
    ensures { result ≡ no_tape }
{
    Tape {
        setpoints: [0; 900],
        actuals: [0; 900],
        filled: 0,
    }
}

// No quarter hour yet.
fn no_account() -> Account
    ensures { result ≡ no_account }
{
    Account {
        taken: 0,
        fees: Cents(0),
        penalties: Cents(0),
    }
}

// A run with nothing in it yet.
fn fresh(plan: Plan, interval: Interval, lot: u32) -> Run
    ensures { result ≡ fresh_run plan interval lot }
{
    Run {
        plan,
        books: Books::new(),
        past: Channel::new(interval, lot),
        load: no_load(),
        tape: no_tape(),
        account: no_account(),
    }
}

// The run of a header that is not refused.
fn run_of(header: Header) -> Run
    ensures { result ≡ run_of header }
{
    let interval = interval_of(above_zero(header.interval));
    let lot = above_zero(lot_meant(header.lot));
    fresh(plan_of(header), interval, lot)
}

impl Run {
    // What stands where an opening gives no run: it has no quarter hour and refuses every call.
    pub fn unopened() -> Run
        ensures { result ≡ no_run }
    {
        let date = Date {
            year: 2000,
            month: 1,
            day: 1,
        };
        fresh(Plan { date, quarters: 0 }, Interval::One, 1)
    }

    // A refused opening gives no run.
    pub fn open(header: Header) -> Result<Run, Refusal>
        ensures { result ≡ allowed (opened_of header).refusal (opened_of header).run }
    {
        open_refusal(header)?;
        Ok(run_of(header))
    }

    // The contracts of both directions.
    pub fn books(self) -> Books
        ensures { result ≡ self.books }
    {
        self.books // those of both directions
    }

    // Whether neither a contract nor a sample came yet, in a run that takes some.
    fn is_untouched(self) -> bool
        ensures { result ≡ untouched self }
    {
        before_samples(self.tape.filled, self.account.taken, self.plan.quarters)
            && self.books.book(Direction::Positive).count() == 0
            && self.books.book(Direction::Negative).count() == 0
    }

    // A block to start from begins with its bounds, directly after the opening.
    pub fn bounds(mut self, bounds: Bounds) -> Answer
        ensures { result ≡ with_bounds_of self bounds }
    {
        let refusal = self.load.bounds_refusal(self.is_untouched(), bounds);
        if refusal.is_ok() {
            self.load = begun_with(self.past.interval(), bounds);
        }
        Answer { run: self, refusal }
    }

    // With a past setpoint more: the channel recalls it, and holds the block's bounds.
    fn recalling(mut self, setpoint: i32) -> Run
        ensures { result ≡ with_setpoint self setpoint }
    {
        let bounds = self.load.bounds;
        let recalled = self.past.recalled(setpoint);
        let bounded = recalled.bounded(bounds.oga, bounds.uga);
        self.past = bounded;
        self.load = self.load.one_fewer();
        self
    }

    // Whether a block was begun that still lacks setpoints.
    pub fn lacks(self) -> bool
        ensures { result ≡ lacks_setpoints self }
    {
        self.load.left != 0
    }

    // Its past setpoints follow, oldest first.
    pub fn setpoint(self, setpoint: i32) -> Answer
        ensures { result ≡ with_setpoint_of self setpoint }
    {
        // one way out for each: a run that is put back into itself first is copied twice as often
        let refusal = self.load.setpoint_refusal(self.is_untouched(), setpoint);
        if refusal.is_err() {
            return Answer { run: self, refusal };
        }
        Answer {
            run: self.recalling(setpoint),
            refusal,
        }
    }

    // What is wrong with a contract but for a block: the moment, then what the lists of both directions say.
    // The identifier goes beside the contract: it is a piece of the line, and is copied only when it is kept.
    fn contract_wrong(self, contract: Contract, identifier: &[u8]) -> Result<(), Refusal>
        ensures { result ≡ contract_wrong self contract identifier.now }
    {
        if !before_samples(self.tape.filled, self.account.taken, self.plan.quarters) {
            return Err(Refusal::WrongMoment);
        }
        self.books.refusal(contract, identifier)
    }

    // And then a block that lacks setpoints.
    fn contract_refusal(self, contract: Contract, identifier: &[u8]) -> Result<(), Refusal>
        ensures { result ≡ contract_ground self contract identifier.now }
    {
        self.contract_wrong(contract, identifier)?;
        self.load.lacking_refusal()
    }

    // One contract more in its direction, with its identifier beside it.
    pub fn contract(mut self, contract: Contract, identifier: &[u8]) -> Answer
        ensures { result ≡ contracted_of self contract identifier.now }
    {
        let refusal = self.contract_refusal(contract, identifier);
        if refusal.is_ok() {
            self.books = self.books.with(contract, identifier);
        }
        Answer { run: self, refusal }
    }

    // The tape with one sample more: what is wrong with the sample comes first, and then a block that lacks setpoints.
    fn longer_tape(self, sample: Sample) -> Result<Tape, Refusal>
        ensures { result ≡ allowed (sample_ground self sample.setpoint sample.actual) (longer self.tape sample.setpoint sample.actual) }
    {
        let longer = self.tape.with_sample(
            self.past.interval(),
            self.account.taken,
            self.plan.quarters,
            sample,
        )?;
        self.load.lacking_refusal()?;
        Ok(longer)
    }

    // One sample more of the quarter hour at hand.
    pub fn sample(mut self, sample: Sample) -> Answer
        ensures { result ≡ sampled_of self sample.setpoint sample.actual }
    {
        match self.longer_tape(sample) {
            Ok(tape) => {
                self.tape = tape;
                Answer {
                    run: self,
                    refusal: Ok(()),
                }
            }
            Err(refusal) => Answer {
                run: self,
                refusal: Err(refusal),
            },
        }
    }

    // All of it but the powers of its samples.
    fn bared(self) -> Bare
        ensures { result ≡ bare_of self }
    {
        Bare {
            plan: self.plan,
            books: self.books,
            past: self.past,
            load: self.load,
            filled: self.tape.filled,
            account: self.account,
        }
    }

    // Taken apart, for a reader that goes through many samples: their powers go to two arrays that are lent.
    pub fn apart(self, setpoints: &mut [i32; 900], actuals: &mut [i32; 900]) -> Bare
        ensures rest { result ≡ bare_of self }
        ensures powers { (setpoints.new ≡ self.tape.setpoints) × (actuals.new ≡ self.tape.actuals) }
    {
        // an array goes from a field to another place by way of a variable
        let asked = self.tape.setpoints;
        let delivered = self.tape.actuals;
        *setpoints = asked;
        *actuals = delivered;
        self.bared()
    }

    // How many samples the quarter hour at hand still takes; 0 where the run takes none.
    pub fn room(self) -> usize
        ensures { result ≡ room_of self }
    {
        self.bared().room()
    }

    // The finished quarter hour's figures.
    pub fn take(self) -> Taken
        ensures { result ≡ taken_of self }
    {
        let taken = self.bared().take(&self.tape.setpoints, &self.tape.actuals);
        Taken {
            run: taken.bare.whole(&self.tape.setpoints, &self.tape.actuals),
            refusal: taken.refusal,
            quarter: taken.quarter,
            sheets: taken.sheets,
        }
    }

    // The end, once every quarter hour was taken; it can be asked for again.
    pub fn end(self) -> Ended
        ensures { result ≡ ended_of self }
    {
        Ended {
            run: self,
            refusal: end_refusal(self.account.taken, self.plan.quarters),
            quarters: self.account.taken,
            fees: self.account.fees,
            penalties: self.account.penalties,
            past: self.past,
        }
    }

    pub fn heading(self) -> Heading
        ensures { result ≡ heading_of self }
    {
        Heading {
            date: self.plan.date,
            interval: self.past.interval(),
            lot: self.past.lot(),
        }
    }
}
