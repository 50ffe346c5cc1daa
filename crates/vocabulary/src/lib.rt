// The words of a settlement, which every crate above uses: what an input says, with any numbers in it, and why it is refused.
#![tactic(auto)]

pub mod interval; // the seconds between two setpoints, and the windows that they fix
pub mod direction; // positive and negative
pub mod header; // the stretch that is settled
pub mod contract; // an awarded contract
pub mod sample; // setpoint and actual
pub mod recorded; // a sample of a recording, with its second
pub mod acceptance; // OGA and UGA
pub mod refusal; // why a call or a line is refused
pub mod stage; // how far an input is
