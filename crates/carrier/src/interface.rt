// The interface of every carrier: which copies wait in it, and what fits beside them.
ghost use Rattle.std.specs.Prelude.{◌≡◌, ◌↔◌, IsTrue, [], ◌∷◌};
ghost use Rattle.carrier.specs.Counts.{earliest};
ghost use Rattle.carrier.specs.Laws.{Laws, Room};
ghost use Rattle.carrier.specs.Waits.{Waits, nothing, without, except, found, fitted, after_post};
ghost use Rattle.carrier.specs.declared.message.Held.{Held};

use crate::fault::CarrierFault;
use crate::message::{Held, Post};
use crate::owed::Key;

// number and station stand apart: what waits is a function of the two, and drop_for names a station alone
pub trait Carrier<B: Copy> {
    // The copy that waits under a message number for a receiver.
    ghost waits: { Self → Waits (Held B) };

    // The room rule: whether messages fit beside what waits, all together.
    // Each call says that it is the same afterwards, since no type ties a carrier to what it was before.
    ghost room: { Self → Room B };

    // Whether enough memory was lent for what a single step posts.
    ghost ample: { Self → Type 0 };

    // What the room rule keeps to.
    ghost laws: { Laws waits room ample };

    // Whether enough memory was lent for what a single step posts; without it a run is not to be started.
    fn is_ample(&self) -> bool
        ensures { IsTrue result ↔ ample self.now };

    // What the copy holds, where it waits.
    fn look(&self, number: u32, station: u8) -> Option<Held<B>>
        ensures { result ≡ waits self.now number station };

    // Whether a message fits. Two calls and none over a slice: a step sends one message or two, and the test of two is no loop over the test of one.
    fn room_one(&self, item: &Post<B>) -> bool
        ensures { result ≡ room self.now (waits self.now) (item.now ∷ []) };

    // Whether two messages fit, both together.
    fn room_two(&self, first: &Post<B>, second: &Post<B>) -> bool
        ensures { result ≡ room self.now (waits self.now) (first.now ∷ second.now ∷ []) };

    // Adds a copy for each receiver, where the message fits.
    fn post(&mut self, item: &Post<B>) -> Result<(), CarrierFault>
        ensures value { result ≡ fitted (room self.old (waits self.old) (item.now ∷ [])) }
        ensures after { waits self.new ≡ after_post (room self.old (waits self.old) (item.now ∷ [])) item.now (waits self.old) }
        ensures same { room self.new ≡ room self.old };

    // Removes a copy; only the module of the owed copy has the key.
    fn take(&mut self, key: &Key, number: u32, station: u8) -> Result<Held<B>, CarrierFault>
        ensures value { result ≡ found (waits self.old number station) }
        ensures after { waits self.new ≡ without number station (waits self.old) }
        ensures same { room self.new ≡ room self.old };

    // Removes every copy for one station.
    fn drop_for(&mut self, station: u8)
        ensures after { waits self.new ≡ except station (waits self.old) }
        ensures same { room self.new ≡ room self.old };

    // Removes every copy.
    fn clear(&mut self)
        ensures after { waits self.new ≡ nothing }
        ensures same { room self.new ≡ room self.old };

    // The earliest tick sent that waits.
    fn oldest(&self) -> Option<u16>
        ensures { result ≡ earliest (waits self.now) };
}
