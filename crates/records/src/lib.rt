// The records that are delivered, with their bytes and their texts.
#![tactic(auto)]

mod class;
mod delivered;
mod gas;
mod response;

pub use class::{Class, Misfit, UnknownClass};
pub use delivered::Delivered;
pub use gas::Gas;
pub use response::Response;
