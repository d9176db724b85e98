// The whole network in memory, over any carrier of messages and any kind of record.
#![tactic(auto)]

mod actors;
mod beginning;
mod crashes;
mod entering;
mod leaving;
mod mails;
mod memory;
mod networks;
mod passing;
mod posting;
mod starting;
mod ticks;

pub use networks::Network;
