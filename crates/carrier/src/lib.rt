// A carrier of messages: what it means, its calls, and the copy that is owed to its station.
#![tactic(auto)]

pub mod courier;
pub mod fault;
pub mod interface;
pub mod memory;
pub mod message;
pub mod owed;
pub mod room;
