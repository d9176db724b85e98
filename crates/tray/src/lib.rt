// A carrier that keeps one record a copy.
#![tactic(auto)]

mod rules;
pub mod tray;
