// Where a key stands among the records of a rack, and how a place is made for another.
ghost use Rattle.std.specs.Prelude.{◌≡◌, ℕ, ◌<◌, ◌≤◌, true, false, length, if◌then◌else◌, Some, None, Option, nat_eq};
ghost use Rattle.std.specs.List.{prefix_len};
ghost use Rattle.carrier.specs.declared.message.Held.{Held};
ghost use Rattle.rack.specs.Entries.{held_under, before, keyed, sifted, Continues, Follows};
ghost use Rattle.rack.specs.Racks.{kept, capacity};

use crate::entry::Entry;
use crate::key::Key;
use crate::rack::Rack;
use crate::shift::put_at;
use crate::sift::sift_in;
use carrier::message::Held;

impl<'a, V: Copy> Rack<'a, V> {
    // The records in use.
    pub(super) fn used(&self) -> &[Entry<V>]
        ensures records { result.now ≡ kept self.now }
        ensures len { length result.now ≡ self.now.len }
    {
        &self.records[..self.len]
    }

    // How many records come before the key.
    pub(super) fn place(&self, key: Key) -> usize
        ensures value { result ≡ prefix_len (before key.rank) (kept self.now) }
        ensures bound { result ≤ self.now.len }
    {
        // by hand: partition_point takes two to three times as long in a small memory, where the branches of this loop are foreseen
        let records = self.used();
        let mut low = 0;
        let mut high = records.len();
        while low < high {
            let middle = low + (high - low) / 2;
            if records[middle].key < key.rank {
                low = middle + 1;
            } else {
                high = middle;
            }
        }
        low
    }

    // Whether a record has the key, live or not.
    fn has_key(&self, key: Key) -> bool
        ensures { result ≡ keyed key.rank (kept self.now) }
    {
        self.used()
            .get(self.place(key))
            .is_some_and(|entry| entry.key == key.rank)
    }

    // Keeps what the rule leaves of each live record, and none that is dead.
    pub(super) fn squeeze<F: Fn(u8, V) -> Option<V>>(&mut self, rule: &F)
        requires called { F.IsAlwaysCallable rule.now }
        requires followed { (f : ℕ → V → Option V) × Follows (F.post rule.now) f }
        ensures same { capacity self.new ≡ capacity self.old }
        ensures after { (f : ℕ → V → Option V) → Follows (F.post rule.now) f → kept self.new ≡ sifted f (kept self.old) }
        ensures dense { self.new.live ≡ self.new.len }
    {
        let left = sift_in(&mut self.records[..self.len], rule);
        self.len = left;
        self.live = left;
        self.first = 0;
    }

    // Squeezes out what was taken, where no place is left at the end or a record that was taken has the key.
    pub(super) fn make_way(&mut self, key: Key)
        requires gone { held_under (kept self.old) key.rank ≡ None }
        requires spare { self.old.live < capacity self.old }
        ensures same { capacity self.new ≡ capacity self.old }
        ensures after { (j : ℕ) → held_under (kept self.new) j ≡ held_under (kept self.old) j }
        ensures spare { self.new.len < capacity self.new }
        ensures free { keyed key.rank (kept self.new) ≡ false }
    {
        if self.len == self.records.len() || self.has_key(key) {
            self.squeeze(&|_, content| Some(content));
        }
    }

    // Whether ticks sent still never fall after one more record at a place.
    fn continues(&self, i: usize, sent: u16) -> bool
        ensures { result ≡ true → Continues (kept self.now) i sent }
    {
        if !self.timely || i != self.len {
            return false;
        }
        match self.used().last() {
            Some(last) => last.held.sent <= sent,
            None => true,
        }
    }

    // Adds a record under a key that no record has, where a place is left at the end.
    pub(super) fn add(&mut self, key: Key, held: Held<V>)
        requires spare { self.old.len < capacity self.old }
        requires free { keyed key.rank (kept self.old) ≡ false }
        ensures same { capacity self.new ≡ capacity self.old }
        ensures after { (j : ℕ) → held_under (kept self.new) j ≡ (if nat_eq j key.rank then Some held else held_under (kept self.old) j) }
    {
        let i = self.place(key);
        let timely = self.continues(i, held.sent);
        let entry = Entry {
            key: key.rank,
            live: true,
            held,
        };
        put_at(&mut self.records[..=self.len], i, entry);
        self.len += 1;
        self.live += 1;
        self.first = self.first.min(i);
        self.timely = timely;
    }
}
