// An operator's shares: what is kept of the quarter hours until they come, which of them is wanted next, and the verdict on them.
// It stands in lists that the caller lends: for 100 quarter hours 200 rows of 32 gaps and 200 surpluses, and up to 6,400 shares.
// Where a list is shorter nothing is kept past its end, and nothing else goes wrong.
#![tactic(auto)]

pub mod kept; // what is put into the lent lists
pub mod wanted; // which U line is wanted next
pub mod judged; // the verdict
