// The log of operations as code, over lent entries.
#![tactic(auto)]

mod entries;
mod log;

pub use log::OperationLog;
