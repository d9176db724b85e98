// An entry as it opens, counts replies and ends, and the entry at a place of a slice.
ghost use Rattle.std.specs.Prelude.{◌≡◌, ◌<◌, true, length, take, Some, slice_get, slice_set};
ghost use Rattle.operation_log.specs.Entries.{counts_may_rise};
ghost use Rattle.network.specs.Logs.{opened, opening_value, count_one, count_two, close};

use network::{Entry, Task};

// Functions, and no methods: `Entry` is another crate's, and a trait for it alone would say each of them twice.

// The entry of an operation that begins.
pub(crate) fn opened<R: Copy>(first: R, p: u8, task: Task<R>, clock: u16) -> Entry<R>
    ensures { result ≡ opened first p task clock }
{
    Entry {
        station: p,
        kind: task.kind(),
        value: opening_value(first, task),
        begin: clock,
        end: None,
        replies_one: 0,
        replies_two: 0,
    }
}

// What an entry shows until its operation ends: of a write its record, of a read the first record.
fn opening_value<R: Copy>(first: R, task: Task<R>) -> R
    ensures { result ≡ opening_value first task }
{
    match task {
        Task::Read => first,
        Task::Write(value) => value,
    }
}

// Whether a reply more can be counted.
pub(crate) fn can_count<R: Copy>(entry: &Entry<R>) -> bool
    ensures { result ≡ counts_may_rise (Some entry.now) }
{
    entry.replies_one < u32::MAX && entry.replies_two < u32::MAX
}

// A reply more in phase one. Two functions, since the rules have a word for each phase; what they require is asked once, by `can_count` in `change_latest`.
pub(crate) fn count_one<R: Copy>(mut entry: Entry<R>) -> Entry<R>
    requires { counts_may_rise (Some entry) ≡ true }
    ensures { result ≡ count_one entry }
{
    entry.replies_one += 1;
    entry
}

// A reply more in phase two.
pub(crate) fn count_two<R: Copy>(mut entry: Entry<R>) -> Entry<R>
    requires { counts_may_rise (Some entry) ≡ true }
    ensures { result ≡ count_two entry }
{
    entry.replies_two += 1;
    entry
}

// The last reply of phase two: the operation ends, and shows its kept record.
pub(crate) fn close<R: Copy>(entry: Entry<R>, kept: R, clock: u16) -> Entry<R>
    requires { counts_may_rise (Some entry) ≡ true }
    ensures { result ≡ close kept clock entry }
{
    let mut entry = count_two(entry);
    entry.value = kept;
    entry.end = Some(clock);
    entry
}

// The entries that are opened, of those that there are.
pub(crate) fn opened_of<R: Copy>(entries: &[Entry<R>], len: usize) -> &[Entry<R>]
    ensures { result.now ≡ take len entries.now }
{
    &entries[..len.min(entries.len())]
}

// Writes one entry.
pub(crate) fn put_at<R: Copy>(entries: &mut [Entry<R>], at: usize, entry: Entry<R>)
    requires { at < length entries.old }
    ensures { entries.new ≡ slice_set entries.old at entry }
{
    entries[at] = entry;
}

// The entry at a place, if there is one.
pub(crate) fn entry_at<R: Copy>(entries: &[Entry<R>], at: usize) -> Option<Entry<R>>
    ensures { result ≡ slice_get entries.now at }
{
    entries.get(at).copied()
}
