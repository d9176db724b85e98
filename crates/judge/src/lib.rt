// Judges a whole schedule file: what it says, or the first reason why it is refused.
#![tactic(auto)]

mod contents;
mod fault;
mod judging;
mod reporting;

pub use contents::{Contents, StepCounts};
pub use fault::Fault;
pub use judging::judge;
pub use reporting::report;
pub use schedule::MOST_BYTES;
