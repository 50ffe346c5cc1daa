// The energies of a quarter hour: from the channel, the samples and the contract lists to what the pool did in each direction and what each contract
// may claim of it. No surplus is handed out here, and nothing is billed.
#![tactic(auto)]

pub mod hour; // both directions of a quarter hour
pub mod claim; // Claim: a contract's energies, cap and gap
mod view; // what a direction sees of each sample, and its quantities
mod energies; // each quantity cut at the contracts' limits, in kWh
