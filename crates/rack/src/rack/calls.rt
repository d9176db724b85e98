// What can be asked of a rack, and done with it. Each call says that the capacity stays, since no type ties a rack to what it was before.
ghost use Rattle.std.specs.Prelude.{◌≡◌, ◌+◌, ◌≤◌, not, length, if◌then◌else◌, Some, ◌==◌};
ghost use Rattle.carrier.specs.Counts.{copies, under, earliest};
ghost use Rattle.carrier.specs.Waits.{nothing, at};
ghost use Rattle.rack.specs.Entries.{changed, trimmed_held};
ghost use Rattle.rack.specs.Racks.{stored, capacity, spare};

use crate::entry::Entry;
use crate::key::Key;
use crate::rack::Rack;
use crate::search::{busy_below, earliest_sent};
use crate::shift::put_over;
use crate::sift::Trim;
use carrier::message::Held;

impl<'a, V: Copy> Rack<'a, V> {
    // An empty rack over lent memory, whatever that held.
    #[tactic(auto, using(crate::proofs::Keys::waiting_none), unfolding(crate::specs::Racks::stored, crate::specs::Racks::capacity))]
    pub fn new(records: &'a mut [Entry<V>]) -> Rack<'a, V>
        ensures empty { stored result ≡ nothing }
        ensures all { capacity result ≡ length records.old }
    {
        Rack {
            records,
            len: 0,
            live: 0,
            first: 0,
            timely: true,
        }
    }

    // How many records were lent.
    #[tactic(auto, unfolding(crate::specs::Racks::capacity))]
    pub fn capacity(&self) -> usize
        ensures { result ≡ capacity self.now }
    {
        self.records.len()
    }

    // How many copies are held.
    pub fn count(&self) -> usize
        ensures value { result ≡ copies (stored self.now) }
        ensures bound { result ≤ capacity self.now }
    {
        self.live
    }

    // How many more copies may be held.
    pub fn left(&self) -> usize
        ensures { result + copies (stored self.now) ≡ capacity self.now }
    {
        self.capacity() - self.count()
    }

    // What is held under a number for a station.
    pub fn get(&self, number: u32, station: u8) -> Option<Held<V>>
        ensures { result ≡ stored self.now number station }
    {
        let key = Key::new(number, station);
        let entry = self.used().get(self.place(key))?;
        (entry.live && entry.key == key.rank).then_some(entry.held)
    }

    // Whether a copy is held under the number, for any station.
    pub fn holds(&self, number: u32) -> bool
        ensures { result ≡ not (under (stored self.now) number == 0) }
    {
        let key = Key::new(number, 0);
        busy_below(&self.used()[self.place(key)..], key.rank + 256)
    }

    // Holds a copy where none is held yet and not all records are in use; answers whether it did.
    // A bool, as a set's `insert` answers: there is one way to fail, and it has no number.
    pub fn insert(&mut self, number: u32, station: u8, held: Held<V>) -> bool
        ensures value { result ≡ spare self.old number station }
        ensures after { stored self.new ≡ (if spare self.old number station then at number station (Some held) (stored self.old) else stored self.old) }
        ensures same { capacity self.new ≡ capacity self.old }
    {
        if self.get(number, station).is_some() || self.count() == self.capacity() {
            return false;
        }
        let key = Key::new(number, station);
        self.make_way(key);
        self.add(key, held);
        true
    }

    // Gives a copy another content, or removes it.
    pub fn change(&mut self, number: u32, station: u8, content: Option<V>)
        ensures after { stored self.new ≡ at number station (changed content (stored self.old number station)) (stored self.old) }
        ensures same { capacity self.new ≡ capacity self.old }
    {
        let key = Key::new(number, station);
        let i = self.place(key);
        let Some(old) = self.used().get(i).copied() else {
            return;
        };
        if old.key != key.rank || !old.live {
            return;
        }
        let stays = content.is_some();
        let first = put_over(
            &mut self.records[..self.len],
            i,
            old.changed(content),
            self.first,
        );
        self.first = first;
        self.live = self.live - 1 + stays as usize;
    }

    // Keeps what the rule leaves of each copy.
    // A trait and no closure: its law says what the rule leaves, so that nothing is asked of a caller.
    pub fn sift<T: Trim<V>>(&mut self, rule: &T)
        ensures after { stored self.new ≡ (λ n q. trimmed_held (T.trimmed rule.now) q (stored self.old n q)) }
        ensures same { capacity self.new ≡ capacity self.old }
    {
        self.squeeze(&|station, content| rule.trim(station, &content));
    }

    // Holds nothing any more.
    #[tactic(auto, using(crate::proofs::Keys::waiting_none), unfolding(crate::specs::Racks::stored, crate::specs::Racks::capacity))]
    pub fn clear(&mut self)
        ensures after { stored self.new ≡ nothing }
        ensures same { capacity self.new ≡ capacity self.old }
    {
        self.len = 0;
        self.live = 0;
        self.first = 0;
        self.timely = true;
    }

    // The earliest tick sent of the copies that are held.
    pub fn oldest(&self) -> Option<u16>
        ensures { result ≡ earliest (stored self.now) }
    {
        let first = self.used().get(self.first)?;
        if self.timely {
            Some(first.held.sent)
        } else {
            earliest_sent(self.used())
        }
    }
}
