// What can be asked of a tray, and done with it.
ghost use Rattle.std.specs.Prelude.{◌≡◌, true, [], ◌∷◌, length, ◌≤◌, refl};
ghost use Rattle.carrier.specs.Counts.{by_copy, fits};
ghost use Rattle.carrier.specs.Memory.{sized};
ghost use Rattle.carrier.specs.Waits.{nothing, posted};
ghost use Rattle.carrier.proofs.Rooms.{copy_cost, room_starts, room_shrinks, room_splits, room_fresh, room_unheard, room_idle};
ghost use Rattle.rack.specs.Racks.{stored, capacity};
ghost use Rattle.rack.proofs.Numbers.{stored_bound};

use crate::rules::Leaving;
use crate::tray::Tray;
use carrier::fault::CarrierFault;
use carrier::interface::Carrier;
use carrier::memory::{TooSmall, enough};
use carrier::message::{Held, Post};
use carrier::owed::Key;
use carrier::room::{Counted, one_fits, two_fit};
use rack::entry::Entry;
use rack::rack::Rack;

// The copies of one message to every station, and of one to a single station before it.
const LEAST: usize = 257;

impl<'a, B: Copy> Tray<'a, B> {
    // Whether the memory is enough for a tray: like other calls here one call of what the makes share, at the tray's own number and records.
    pub fn check(records: &[Entry<B>]) -> Result<(), TooSmall>
        ensures { result ≡ sized 257 (length records.now) }
    {
        enough(records.len(), LEAST)
    }

    // An empty tray over lent memory, whatever that held; never fails, since over too little every law still holds and is_ample tells.
    pub fn new(records: &'a mut [Entry<B>]) -> Tray<'a, B>
        ensures empty { stored result.rack ≡ nothing }
        ensures all { capacity result.rack ≡ length records.old }
    {
        let rack = Rack::new(records);
        Tray { rack }
    }
}

impl<'a, B: Copy> Counted<B> for Tray<'a, B> {
    ghost counted = { λ t. stored t.rack };

    ghost size = { λ t. capacity t.rack };

    ghost cost = { by_copy };

    ghost free = { refl };

    ghost held = { λ t. stored_bound t.rack };

    fn cost(&self, item: &Post<B>) -> usize {
        item.to.count() as usize
    }

    fn left(&self) -> usize {
        self.rack.left()
    }

    fn holds(&self, number: u32) -> bool {
        self.rack.holds(number)
    }
}

impl<'a, B: Copy> Carrier<B> for Tray<'a, B> {
    ghost waits = { λ t. stored t.rack };

    ghost room = { λ t. fits by_copy (capacity t.rack) };

    ghost ample = { λ t. 257 ≤ capacity t.rack };

    ghost laws = { record { starts = λ t ps h. room_starts by_copy copy_cost (capacity t.rack) h ps; shrinks = λ t. room_shrinks by_copy copy_cost (capacity t.rack); splits = λ t. room_splits by_copy copy_cost (capacity t.rack); own_numbers = λ t. room_fresh by_copy (capacity t.rack); unheard = λ t. room_unheard by_copy refl (capacity t.rack); idle = λ t. room_idle by_copy (capacity t.rack) (stored t.rack) (stored_bound t.rack) } };

    fn is_ample(&self) -> bool {
        LEAST <= self.rack.capacity()
    }

    fn look(&self, number: u32, station: u8) -> Option<Held<B>> {
        self.rack.get(number, station)
    }

    fn room_one(&self, item: &Post<B>) -> bool {
        one_fits(self, item)
    }

    fn room_two(&self, first: &Post<B>, second: &Post<B>) -> bool {
        two_fit(self, first, second)
    }

    fn post(&mut self, item: &Post<B>) -> Result<(), CarrierFault> {
        if !self.room_one(item) {
            return Err(CarrierFault::NoRoom);
        }
        fill(&mut self.rack, item);
        Ok(())
    }

    fn take(&mut self, _key: &Key, number: u32, station: u8) -> Result<Held<B>, CarrierFault> {
        let held = self
            .rack
            .get(number, station)
            .ok_or(CarrierFault::NotWaiting)?;
        self.rack.change(number, station, None);
        Ok(held)
    }

    fn drop_for(&mut self, station: u8) {
        self.rack.sift(&Leaving { station });
    }

    fn clear(&mut self) {
        self.rack.clear();
    }

    fn oldest(&self) -> Option<u16> {
        self.rack.oldest()
    }
}

// Holds a copy for each receiver of a message that fits.
fn fill<B: Copy>(rack: &mut Rack<B>, item: &Post<B>)
    requires { fits by_copy (capacity rack.old) (stored rack.old) (item.now ∷ []) ≡ true }
    ensures after { stored rack.new ≡ posted item.now (stored rack.old) }
    ensures same { capacity rack.new ≡ capacity rack.old }
{
    let Post { number, held, to } = *item;
    // counted to 256 and cast: of a range up to the last u8 it was not proved that it gives every station
    for q in 0..256u16 {
        let station = q as u8;
        if to.contains(station) {
            rack.insert(number, station, held);
        }
    }
}
