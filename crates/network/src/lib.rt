// The rules of the network: what a station keeps and does, what messages say, steps, limit book, log, runs.
#![tactic(auto)]

mod cases;
mod content;
mod entry;
mod fault;
mod hearing;
mod knowing;
mod known;
mod letter;
mod lives;
mod membership;
mod offers;
mod operation;
mod outcome;
mod phases;
mod poll;
mod register;
mod speaking;
mod stamp;
mod station;
mod step;

pub use cases::worked_cases_hold;
pub use content::Content;
pub use entry::Entry;
pub use fault::{LogFault, StepFault};
pub use known::Known;
pub use letter::{Letter, Speech, To};
pub use operation::{Kind, Operation, Task};
pub use outcome::{Done, Outcome};
pub use poll::Poll;
pub use register::Register;
pub use stamp::Stamp;
pub use station::{Life, Station};
pub use step::Step;
