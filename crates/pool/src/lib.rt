// A carrier that keeps one record a message.
#![tactic(auto)]

pub mod pool;
pub mod shared;
