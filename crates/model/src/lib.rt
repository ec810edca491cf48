// The calls over the device record, each answered or refused under the number of the lowest row that applies.
#![tactic(auto)]

pub mod calls;
pub mod small_signal;
