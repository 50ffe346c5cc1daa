// The header, as calls take it and lines say it: what is out of range is refused where the run is opened.
use arithmetic::date::Date;

// The minimum lot in kW, or left blank: what that means is decided where the run is opened.
// Stays an enum of its own: a blank lot means 5,000 kW, which `None` would not say.
#[derive(Clone, Copy, Debug, PartialEq, Eq)]
pub enum Lot {
    Blank,
    Kw(i32),
}

// The stretch: its day, the interval in seconds, the minimum lot and the number of quarter hours.
#[derive(Clone, Copy)]
pub struct Header {
    pub date: Date,
    pub interval: i32,
    pub lot: Lot,
    pub quarters: i32,
}
