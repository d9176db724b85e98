// The settings of a network: which choices are admitted, and what a refusal of one says.
#![tactic(auto)]

mod cases;
mod choice;
mod conditions;
mod fault;
mod ranges;
mod rows;
mod settings;

pub use cases::settings_cases_hold;
pub use choice::Choice;
pub use fault::SettingsFault;
pub use rows::shipped;
pub use settings::{Settings, start_in_range};
