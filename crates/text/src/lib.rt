// The text of a run: its lines, one after the other, and what is printed for each of them.
#![tactic(auto)]

pub mod desk; // Desk: hands the lines to a run, and prints
