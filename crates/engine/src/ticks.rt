// Tick: the clock rises by 1.
ghost use Rattle.std.specs.Prelude.{◌≡◌, None};
ghost use Rattle.engine.specs.Memories.{state_of, setup_of, passed, Kept, SameLoans};
ghost use Rattle.network.specs.Changes.{ticked};
ghost use Rattle.network.specs.Refusals.{due, refusal};
ghost use Rattle.network.specs.declared.step.Step.TheVariants.{Tick};
ghost use Rattle.network.specs.Steps.{after, outcome};

use crate::memory::Memory;
use crate::passing::hold;
use carrier::interface::Carrier;
use network::{Content, Outcome, StepFault};
use stations::Stations;

// Whether a copy sent in the earliest tick has to be delivered before the next.
fn is_due(d: u16, clock: u16, earliest: Option<u16>) -> bool
    ensures { result ≡ due d clock earliest }
{
    match earliest {
        Some(sent) => sent as u32 + d as u32 <= clock as u32 + 1,
        None => false,
    }
}

impl<'a, R: Copy, C: Carrier<Content<R, Stations>>> Memory<'a, R, C> {
    // Ticks, or is refused.
    pub(crate) fn tick(&mut self) -> Outcome<R>
        requires kept { Kept self.old }
        ensures value { result ≡ outcome (setup_of C.room self.old) Tick (state_of C.waits self.old) }
        ensures after { state_of C.waits self.new ≡ after (setup_of C.room self.old) Tick (state_of C.waits self.old) }
        ensures same { setup_of C.room self.new ≡ setup_of C.room self.old }
        ensures kept { Kept self.new }
        ensures loans { SameLoans self.old self.new }
    {
        self.test_tick()?;
        self.carry_out_tick();
        Ok(self.nothing_sent())
    }

    // 33: a copy is due; 34: the clock has come to its end.
    pub(crate) fn test_tick(&self) -> Result<(), StepFault>
        ensures { result ≡ passed (refusal (setup_of C.room self.now) Tick (state_of C.waits self.now)) }
    {
        let due = is_due(self.settings.choice().d, self.clock, self.carrier.oldest());
        hold(!due, StepFault::CopyDue)?;
        hold(self.clock < u16::MAX, StepFault::ClockEnd)
    }

    // The clock rises by 1, and a row of the limit book ends.
    pub(crate) fn carry_out_tick(&mut self)
        requires accepted { refusal (setup_of C.room self.old) Tick (state_of C.waits self.old) ≡ None }
        requires kept { Kept self.old }
        ensures after { state_of C.waits self.new ≡ ticked (setup_of C.room self.old) (state_of C.waits self.old) }
        ensures same { setup_of C.room self.new ≡ setup_of C.room self.old }
        ensures kept { Kept self.new }
        ensures loans { SameLoans self.old self.new }
    {
        self.book.end_tick(self.present.count());
        self.clock += 1;
    }
}
