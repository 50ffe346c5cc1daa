// The bounds of the acceptance channel, in units.
use arithmetic::power::Units;

#[derive(Clone, Copy)]
pub struct Bounds {
    pub oga: Units,
    pub uga: Units,
}
