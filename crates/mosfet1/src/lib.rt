// An accepted evaluation over the device record (`eval` of mosfet1.rs), and the definitions of an accepted commit, which is in
// `commit`.
#![tactic(auto)]

pub mod steps;
