// Crash: the station stays present and does nothing more.
ghost use Rattle.std.specs.Prelude.{◌≡◌, ◌<◌, length};
ghost use Rattle.engine.specs.Memories.{state_of, setup_of, passed_with, Kept, SameLoans, Turned};
ghost use Rattle.network.specs.Books.{crashed_share};
ghost use Rattle.network.specs.Changes.{crashed};
ghost use Rattle.network.specs.Keeping.{with_crashed};
ghost use Rattle.network.specs.Refusals.{refusal};
ghost use Rattle.network.specs.Steps.{after, outcome};
ghost use Rattle.network.specs.declared.step.Step.TheVariants.{Crash};

use crate::memory::Memory;
use crate::passing::hold;
use carrier::interface::Carrier;
use network::{Content, Outcome, Station, StepFault};
use stations::Stations;

// Whether the share of crashed stations among those present is allowed.
pub(crate) fn share_allowed(delta: u16, crashed: u16, present: u16) -> bool
    ensures { result ≡ crashed_share delta crashed present }
{
    100 * crashed as u32 <= delta as u32 * present as u32
}

// One station crashes.
fn crash_at<R: Copy>(stations: &mut [Station<R, Stations>], q: usize)
    requires { q < length stations.old }
    ensures { Turned q with_crashed stations.old stations.new }
{
    stations[q].crash();
}

impl<'a, R: Copy, C: Carrier<Content<R, Stations>>> Memory<'a, R, C> {
    // Crashes the station, or is refused.
    pub(crate) fn crash(&mut self, p: u16) -> Outcome<R>
        requires kept { Kept self.old }
        ensures value { result ≡ outcome (setup_of C.room self.old) (Crash p) (state_of C.waits self.old) }
        ensures after { state_of C.waits self.new ≡ after (setup_of C.room self.old) (Crash p) (state_of C.waits self.old) }
        ensures same { setup_of C.room self.new ≡ setup_of C.room self.old }
        ensures kept { Kept self.new }
        ensures loans { SameLoans self.old self.new }
    {
        let q = self.test_crash(p)?;
        self.carry_out_crash(q);
        Ok(self.nothing_sent())
    }

    // 20, 22, 23; and 32: too many would be crashed.
    fn test_crash(&self, p: u16) -> Result<u8, StepFault>
        requires kept { Kept self.now }
        ensures { result ≡ passed_with p (refusal (setup_of C.room self.now) (Crash p) (state_of C.waits self.now)) }
    {
        let q = self.actor(p)?;
        let mut active = self.active;
        active.remove(q);
        let crashed = self.present.count_without(&active);
        let allowed = share_allowed(self.settings.choice().delta, crashed, self.present.count());
        hold(allowed, StepFault::TooManyCrashed)?;
        Ok(q)
    }

    // The station crashes, and the copies that wait for it are dropped.
    fn carry_out_crash(&mut self, q: u8)
        requires within { q < self.old.table }
        requires kept { Kept self.old }
        ensures after { state_of C.waits self.new ≡ crashed q (state_of C.waits self.old) }
        ensures same { setup_of C.room self.new ≡ setup_of C.room self.old }
        ensures kept { Kept self.new }
        ensures loans { SameLoans self.old self.new }
    {
        crash_at(self.stations, q as usize);
        self.carrier.drop_for(q);
        self.active.remove(q);
    }
}
