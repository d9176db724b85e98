// Copies kept by number and station in lent memory, found by halving and squeezed together only when a place is wanted.
ghost use Rattle.std.specs.Prelude.{◌≡◌, ◌≤◌, true, not, ◌||◌, length, take};
ghost use Rattle.std.specs.List.{prefix_len};
ghost use Rattle.rack.specs.Entries.{rising, lives, dead, steady};

use crate::entry::Entry;

pub mod calls;
mod places;

// A base for makes of carriers: records in use are the first of those lent; taken ones stay among them until they are squeezed out.
#[derive(Drop)]
pub struct Rack<'a, V> {
    records: &'a mut [Entry<V>],
    // how many records are in use: no Vec, since the memory is lent
    len: usize,
    // how many of them are live
    live: usize,
    // how many stand before the first live one
    first: usize,
    // set only while ticks sent never fall along the records
    timely: bool,
    ghost within: { len ≤ length records.now },
    ghost order: { rising 0 (take len records.now) ≡ true },
    ghost count: { live ≡ lives (take len records.now) },
    ghost front: { first ≡ prefix_len dead (take len records.now) },
    ghost ticks: { (not timely || steady 0 (take len records.now)) ≡ true },
}
