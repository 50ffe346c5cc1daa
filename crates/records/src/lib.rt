// What a run keeps of its quarter hours: the samples of the one at hand, and the sums of those that were taken.
#![tactic(auto)]

pub mod account; // Account: the quarter hours taken, and the sums of their fees and penalties
pub mod tape; // Tape: the samples of the quarter hour at hand
