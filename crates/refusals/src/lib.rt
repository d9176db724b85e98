// What every refusal tells its caller: a number, the layer that refused, and the place.
#![tactic(auto)]

ghost use Rattle.std.specs.Prelude.{Some};
ghost use Rattle.refusals.specs.Texts.{refusal_text};

use std::fmt;

// Who can cause a refusal.
#[derive(Clone, Copy, PartialEq, Eq, Debug)]
pub enum Layer {
    // who writes the schedule file
    File,
    // who chooses settings, or lends memory
    Settings,
    // who orders steps, or the limits of the network
    Step,
    // the carrier of messages
    Carrier,
    // the log of operations
    Log,
}

// A refusal as a caller is told of it.
#[derive(Clone, Copy, PartialEq, Eq, Debug)]
pub struct Refusal {
    // the number that is printed; each layer has an enum of its own for its faults
    pub number: u8,
    pub layer: Layer,
    // a byte offset for the file's records, an ordinal from 1 for a step, else 0
    pub place: usize,
}

impl fmt::Display for Refusal {
    ghost output = { λ x. Some (refusal_text x) };

    fn fmt<W: fmt::Write>(&self, f: &mut fmt::Formatter<W>) -> fmt::Result {
        write!(f, "refused {} at {}", self.number, self.place)
    }
}
