// Records kept in lent memory in rising order of message number and station: a base for makes of carriers.
#![tactic(auto)]

pub mod entry;
mod key;
pub mod rack;
mod search;
mod shift;
pub mod sift;
