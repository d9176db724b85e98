// What can be asked of a pool, and done with it.
ghost use Rattle.std.specs.Prelude.{◌≡◌, length, ◌≤◌, refl};
ghost use Rattle.carrier.specs.Counts.{by_message, fits};
ghost use Rattle.carrier.specs.Memory.{sized};
ghost use Rattle.carrier.specs.Waits.{nothing};
ghost use Rattle.carrier.proofs.Rooms.{message_cost, room_starts, room_shrinks, room_splits, room_fresh, room_unheard, room_idle};
ghost use Rattle.rack.specs.Racks.{capacity};
ghost use Rattle.pool.specs.Bounds.{pooled_bound};
ghost use Rattle.pool.specs.Meaning.{pooled};

use crate::pool::Pool;
use crate::shared::{Leaving, Shared, open, share, without};
use carrier::fault::CarrierFault;
use carrier::interface::Carrier;
use carrier::memory::{TooSmall, enough};
use carrier::message::{Held, Post};
use carrier::owed::Key;
use carrier::room::{Counted, one_fits, two_fit};
use rack::entry::Entry;
use rack::rack::Rack;

// The message of a step, and the one before it.
const LEAST: usize = 2;

impl<'a, B: Copy> Pool<'a, B> {
    // Whether the memory is enough for a pool: like other calls here one call of what the makes share, at the pool's own number and records.
    pub fn check(records: &[Entry<Shared<B>>]) -> Result<(), TooSmall>
        ensures { result ≡ sized 2 (length records.now) }
    {
        enough(records.len(), LEAST)
    }

    // An empty pool over lent memory, whatever that held; never fails, since over too little every law still holds and is_ample tells.
    pub fn new(records: &'a mut [Entry<Shared<B>>]) -> Pool<'a, B>
        ensures empty { pooled result.rack ≡ nothing }
        ensures all { capacity result.rack ≡ length records.old }
    {
        let rack = Rack::new(records);
        Pool { rack }
    }
}

impl<'a, B: Copy> Counted<B> for Pool<'a, B> {
    ghost counted = { λ p. pooled p.rack };

    ghost size = { λ p. capacity p.rack };

    ghost cost = { by_message };

    ghost free = { refl };

    ghost held = { λ p. pooled_bound p.rack p.whole p.wanted };

    fn cost(&self, item: &Post<B>) -> usize {
        usize::from(!item.to.is_empty())
    }

    fn left(&self) -> usize {
        self.rack.left()
    }

    fn holds(&self, number: u32) -> bool {
        self.rack.get(number, 0).is_some()
    }
}

impl<'a, B: Copy> Carrier<B> for Pool<'a, B> {
    ghost waits = { λ p. pooled p.rack };

    ghost room = { λ p. fits by_message (capacity p.rack) };

    ghost ample = { λ p. 2 ≤ capacity p.rack };

    ghost laws = { record { starts = λ p ps h. room_starts by_message message_cost (capacity p.rack) h ps; shrinks = λ p. room_shrinks by_message message_cost (capacity p.rack); splits = λ p. room_splits by_message message_cost (capacity p.rack); own_numbers = λ p. room_fresh by_message (capacity p.rack); unheard = λ p. room_unheard by_message refl (capacity p.rack); idle = λ p. room_idle by_message (capacity p.rack) (pooled p.rack) (pooled_bound p.rack p.whole p.wanted) } };

    fn is_ample(&self) -> bool {
        LEAST <= self.rack.capacity()
    }

    fn look(&self, number: u32, station: u8) -> Option<Held<B>> {
        open(self.rack.get(number, 0), station)
    }

    fn room_one(&self, item: &Post<B>) -> bool {
        one_fits(self, item)
    }

    fn room_two(&self, first: &Post<B>, second: &Post<B>) -> bool {
        two_fit(self, first, second)
    }

    fn post(&mut self, item: &Post<B>) -> Result<(), CarrierFault> {
        if !self.room_one(item) {
            return Err(CarrierFault::NoRoom);
        }
        let Post { number, held, to } = *item;
        if to.is_empty() {
            return Ok(());
        }
        self.rack.insert(number, 0, share(held, to));
        Ok(())
    }

    fn take(&mut self, _key: &Key, number: u32, station: u8) -> Result<Held<B>, CarrierFault> {
        let message = self.rack.get(number, 0);
        let held = open(message, station).ok_or(CarrierFault::NotWaiting)?;
        let kept = message.ok_or(CarrierFault::NotWaiting)?;
        self.rack.change(number, 0, without(kept.content, station));
        Ok(held)
    }

    fn drop_for(&mut self, station: u8) {
        self.rack.sift(&Leaving { station });
    }

    fn clear(&mut self) {
        self.rack.clear();
    }

    fn oldest(&self) -> Option<u16> {
        self.rack.oldest()
    }
}
