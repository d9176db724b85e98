// The station that a step is about.
ghost use Rattle.std.specs.Prelude.{◌≡◌, []};
ghost use Rattle.engine.specs.Memories.{state_of, setup_of, passed_with, Kept};
ghost use Rattle.network.specs.Refusals.{first_of, of_actor};

use crate::memory::Memory;
use crate::passing::hold;
use carrier::interface::Carrier;
use network::{Content, StepFault};
use stations::Stations;

impl<'a, R: Copy, C: Carrier<Content<R, Stations>>> Memory<'a, R, C> {
    // 20: it is not in the table; 22: it is not present; 23: it has crashed.
    pub(crate) fn actor(&self, p: u16) -> Result<u8, StepFault>
        requires kept { Kept self.now }
        ensures { result ≡ passed_with p (first_of (of_actor (setup_of C.room self.now) p (state_of C.waits self.now) [])) }
    {
        hold(p < self.table, StepFault::NoStation)?;
        let q = p as u8;
        hold(self.present.contains(q), StepFault::NotPresent)?;
        hold(self.active.contains(q), StepFault::Crashed)?;
        Ok(q)
    }
}
