// Checks the shares that somebody else made: an input that is settled, then a U line for each of its K lines.
// What has to be kept of the quarter hours until their shares come stands in lists that the caller lends: see the crate `judging`.
#![tactic(auto)]

pub mod checker; // Checker: the lines one after the other, and the verdict at the end
mod answers; // what opens a run, and what it answers to a line
