// One record written among others.
ghost use Rattle.std.specs.Prelude.{◌≡◌, ◌+◌, ◌-◌, ◌<◌, ◌≤◌, ◌∷◌, ◌++◌, length, take, drop, slice_set};
ghost use Rattle.std.specs.List.{prefix_len};
ghost use Rattle.rack.specs.Entries.{dead};

use crate::entry::Entry;
use crate::search::dead_before;

// Puts a record at a place; those from there on move up by one, and the last falls out.
pub(crate) fn put_at<V: Copy>(records: &mut [Entry<V>], i: usize, entry: Entry<V>)
    requires { i < length records.old }
    ensures { records.new ≡ take i records.old ++ entry ∷ drop i (take (length records.old - 1) records.old) }
{
    records[i..].rotate_right(1);
    records[i] = entry;
}

// Puts a record in the place of another, and answers how many stand before the first live one, where so many are known to.
pub(crate) fn put_over<V: Copy>(
    records: &mut [Entry<V>],
    i: usize,
    entry: Entry<V>,
    first: usize,
) -> usize
    requires place { i < length records.old }
    requires known { first ≤ length records.old }
    ensures after { records.new ≡ slice_set records.old i entry }
    ensures front { result ≡ first + prefix_len dead (drop first records.new) }
{
    records[i] = entry;
    first + dead_past(records, first)
}

// How many dead records stand before the first live one, from a place on.
fn dead_past<V: Copy>(records: &[Entry<V>], from: usize) -> usize
    requires { from ≤ length records.now }
    ensures { result ≡ prefix_len dead (drop from records.now) }
{
    dead_before(&records[from..])
}
