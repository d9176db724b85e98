// Passes over records that stop early, or pick one of them.
ghost use Rattle.std.specs.Prelude.{◌≡◌, filter, map, min, take_while};
ghost use Rattle.std.specs.List.{list_any, prefix_len, reduce};
ghost use Rattle.rack.specs.Entries.{before, dead, live};

use crate::entry::Entry;

// How many dead records stand before the first live one.
pub(crate) fn dead_before<V: Copy>(records: &[Entry<V>]) -> usize
    ensures { result ≡ prefix_len dead records.now }
{
    records.iter().take_while(|entry| !entry.live).count()
}

// Whether a live record stands before the first whose key is the bound or above.
pub(crate) fn busy_below<V: Copy>(records: &[Entry<V>], bound: u64) -> bool
    ensures { result ≡ list_any live (take_while (before bound) records.now) }
{
    records
        .iter()
        .take_while(|entry| entry.key < bound)
        .any(|entry| entry.live)
}

// The earliest tick sent of the live records.
pub(crate) fn earliest_sent<V: Copy>(records: &[Entry<V>]) -> Option<u16>
    ensures { result ≡ reduce min (map (λ e. e.held.sent) (filter live records.now)) }
{
    records
        .iter()
        .filter(|entry| entry.live)
        .map(|entry| entry.held.sent)
        .min()
}
