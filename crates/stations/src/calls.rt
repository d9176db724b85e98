// What can be asked of a set of stations, and done with it.
ghost use Rattle.std.specs.Prelude.{◌≡◌, ◌≤◌, true, false, ◌==◌};
ghost use Rattle.stations.specs.Members.{member, nobody, either, only, put, how_many, removed};
ghost use Rattle.stations.specs.Words.{bit_set};

use crate::Stations;
use std::array;

impl Stations {
    // The set without a member.
    pub fn none() -> Stations
        ensures { member result ≡ nobody }
    {
        Stations { words: [0; 4] }
    }

    pub fn contains(&self, p: u8) -> bool
        ensures { result ≡ member self.now p }
    {
        (self.words[p as usize / 64] >> (p % 64)) & 1 == 1
    }

    pub fn insert(&mut self, p: u8)
        ensures { member self.new ≡ put (member self.old) p true }
    {
        let i = p as usize / 64;
        self.words[i] |= 1u64 << (p % 64);
    }

    pub fn remove(&mut self, p: u8)
        ensures value { self.new ≡ removed self.old p }
        ensures meaning { member self.new ≡ put (member self.old) p false }
    {
        let i = p as usize / 64;
        self.words[i] &= !(1u64 << (p % 64));
    }

    // Adds every member of the other set.
    pub fn add_all(&mut self, other: &Stations)
        ensures { member self.new ≡ either (member self.old) (member other.now) }
    {
        self.words = array::from_fn(|i| self.words[i] | other.words[i]);
    }

    // How many members are not in the other set.
    // A count is a plain u16 that callers add and compare, so its bound is a promise and not a type of its own.
    pub fn count_without(&self, other: &Stations) -> u16
        ensures value { result ≡ how_many (only (member self.now) (member other.now)) 256 }
        ensures bound { result ≤ 256 }
    {
        let pairs = self.words.iter().zip(&other.words);
        pairs.map(|(word, mask)| bits_without(*word, *mask)).sum()
    }

    pub fn count(&self) -> u16
        ensures value { result ≡ how_many (member self.now) 256 }
        ensures bound { result ≤ 256 }
    {
        self.count_without(&Stations::none())
    }

    pub fn is_empty(&self) -> bool
        ensures { result ≡ (how_many (member self.now) 256 == 0) }
    {
        self.count() == 0
    }
}

// How many bits are set in the word and not in the mask.
fn bits_without(word: u64, mask: u64) -> u16
    ensures { result ≡ how_many (only (bit_set word) (bit_set mask)) 64 }
{
    (word & !mask).count_ones() as u16
}
