// The bounds OGA and UGA by the windows over the setpoints: for one sample more, and along a line of setpoints at once.
#![tactic(auto)]

pub mod side; // the upper and the lower side
pub mod bound; // the gradient and the next bounds
pub mod line; // the bounds along a line of setpoints
mod widening; // the windows at every place of a line
