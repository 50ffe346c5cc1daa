// A recording with holes, mended line by line: its lines in, the clean run of samples out, with a mark for each line that is dropped and each sample that is filled in.
#![tactic(auto)]

pub mod grid; // Grid: the seconds that a recording has to have
mod marks; // the lines that are printed
pub mod mender; // Mender: what a line of a recording comes to
