// The log of operations over lent entries.
ghost use Rattle.std.specs.Prelude.{◌≡◌, ◌+◌, ◌<◌, true, length, if◌then◌else◌, Some, Ok, Err, IfOk, slice_index, slice_set};
ghost use Rattle.settings.specs.Admission.{unless};
ghost use Rattle.settings.specs.Faults.{outcome};
ghost use Rattle.settings.specs.declared.fault.SettingsFault.TheVariants.{MemorySize};
ghost use Rattle.operation_log.specs.Entries.{counts_may_rise, latest_of, log_of, log_size, places, can_open, can_count, latest_entry, SameMemory};
ghost use Rattle.network.specs.Logs.{new_log, open_entry, at_latest, count_one, count_two, close};
ghost use Rattle.network.specs.declared.entry.Entry.{Entry};
ghost use Rattle.network.specs.declared.fault.LogFault.TheVariants.{Full};

use crate::entries::{can_count, close, count_one, count_two, entry_at, opened, opened_of, put_at};
use network::{Entry, LogFault, Task};
use settings::SettingsFault;

#[derive(Drop)]
pub struct OperationLog<'a, R> {
    entries: &'a mut [Entry<R>],
    // how many entries are opened: no Vec, since the memory is lent
    len: usize,
    // the place of each station's latest entry; 0 and no Option where it has none, as in the log of the rules
    latest: [usize; 256],
}

impl<'a, R: Copy> OperationLog<'a, R> {
    // A log in which nothing is opened, over memory for 1 to 65,535 entries.
    pub fn new(entries: &'a mut [Entry<R>]) -> Result<OperationLog<'a, R>, SettingsFault>
        ensures value { outcome result log_of ≡ unless (log_size (length entries.old)) MemorySize (Ok new_log) }
        ensures held { IfOk result (λ l. l.entries.now ≡ entries.old) }
        ensures named { IfOk result (λ l. l.entries.ghost_name ≡ entries.entry.ghost_name) }
    {
        if !is_log_size(entries.len()) {
            return Err(SettingsFault::MemorySize);
        }
        Ok(OperationLog {
            entries,
            len: 0,
            latest: nobodys(),
        })
    }

    // How many entries are opened.
    pub fn len(&self) -> usize
        ensures { result ≡ length (log_of self.now).entries }
    {
        opened_of(self.entries, self.len).len()
    }

    // Whether an operation more can be opened.
    pub fn has_room(&self) -> bool
        ensures { result ≡ can_open (places self.now) (log_of self.now) }
    {
        self.len() < self.entries.len()
    }

    // Opens the entry of an operation of p, which is then its latest; refused where every entry has been opened.
    pub fn open(&mut self, first: R, p: u8, task: Task<R>, clock: u16) -> Result<(), LogFault>
        ensures value { result ≡ (if can_open (places self.old) (log_of self.old) then Ok tt else Err Full) }
        ensures after { log_of self.new ≡ (if can_open (places self.old) (log_of self.old) then open_entry first p task clock (log_of self.old) else log_of self.old) }
        ensures memory { SameMemory self.old self.new }
    {
        if !self.has_room() {
            return Err(LogFault::Full);
        }
        self.push(p, opened(first, p, task, clock));
        Ok(())
    }

    // Writes the next entry, which is then p's latest.
    fn push(&mut self, p: u8, entry: Entry<R>)
        requires { self.old.len < length self.old.entries.now }
        ensures written { self.new.entries.now ≡ slice_set self.old.entries.now self.old.len entry }
        ensures opened { self.new.len ≡ self.old.len + 1 }
        ensures latest { self.new.latest ≡ slice_set self.old.latest p self.old.len }
        ensures named { self.new.entries.ghost_name ≡ self.old.entries.ghost_name }
    {
        let at = self.len;
        let station = p as usize;
        put_at(self.entries, at, entry);
        self.latest[station] = at;
        self.len = at + 1;
    }

    // Counts a reply of phase one in p's latest entry, if it has one; where a count cannot rise, nothing changes.
    // A bool, as a set's `insert` answers: there is one way to fail, and it has no number.
    pub fn count_one(&mut self, p: u8) -> bool
        ensures value { result ≡ can_count p (log_of self.old) }
        ensures after { log_of self.new ≡ (if can_count p (log_of self.old) then at_latest p count_one (log_of self.old) else log_of self.old) }
        ensures memory { SameMemory self.old self.new }
    {
        self.change_latest(p, count_one)
    }

    // Counts a reply of phase two in p's latest entry, in the same way.
    pub fn count_two(&mut self, p: u8) -> bool
        ensures value { result ≡ can_count p (log_of self.old) }
        ensures after { log_of self.new ≡ (if can_count p (log_of self.old) then at_latest p count_two (log_of self.old) else log_of self.old) }
        ensures memory { SameMemory self.old self.new }
    {
        self.change_latest(p, count_two)
    }

    // Counts the last reply in p's latest entry, in the same way: the operation ends, and shows its kept record.
    pub fn close(&mut self, p: u8, kept: R, clock: u16) -> bool
        ensures value { result ≡ can_count p (log_of self.old) }
        ensures after { log_of self.new ≡ (if can_count p (log_of self.old) then at_latest p (close kept clock) (log_of self.old) else log_of self.old) }
        ensures memory { SameMemory self.old self.new }
    {
        self.change_latest(p, |entry| close(entry, kept, clock))
    }

    // Changes p's latest entry, if it has one; where a count cannot rise, nothing changes.
    fn change_latest<F: FnOnce(Entry<R>) -> Entry<R>>(&mut self, p: u8, change: F) -> bool
        requires { (e : Entry R) → counts_may_rise (Some e) ≡ true → F.pre change e }
        ensures value { result ≡ can_count p (log_of self.old) }
        ensures after { (f : Entry R → Entry R) → ((e y : Entry R) → F.post change e y → y ≡ f e) → log_of self.new ≡ (if can_count p (log_of self.old) then at_latest p f (log_of self.old) else log_of self.old) }
        ensures memory { SameMemory self.old self.new }
    {
        if let Some(entry) = self.latest_entry(p) {
            if !can_count(&entry) {
                return false;
            }
            self.put_latest(p, change(entry));
        }
        true
    }

    // Writes p's latest entry.
    fn put_latest(&mut self, p: u8, entry: Entry<R>)
        requires { slice_index self.old.latest p < length self.old.entries.now }
        ensures written { self.new.entries.now ≡ slice_set self.old.entries.now (slice_index self.old.latest p) entry }
        ensures opened { self.new.len ≡ self.old.len }
        ensures latest { self.new.latest ≡ self.old.latest }
        ensures named { self.new.entries.ghost_name ≡ self.old.entries.ghost_name }
    {
        let place = self.latest_place(p);
        put_at(self.entries, place, entry);
    }

    // The place of p's latest entry; 0 where it has none.
    fn latest_place(&self, p: u8) -> usize
        ensures { result ≡ slice_index self.now.latest p }
    {
        self.latest[p as usize]
    }

    // The latest entry of p, if there is one.
    pub fn latest_entry(&self, p: u8) -> Option<Entry<R>>
        ensures { result ≡ latest_entry p (log_of self.now) }
    {
        entry_at(opened_of(self.entries, self.len), self.latest_place(p))
    }

    // Forgets every entry, for a new run.
    pub fn clear(&mut self)
        ensures after { log_of self.new ≡ new_log }
        ensures memory { SameMemory self.old self.new }
    {
        self.len = 0;
        self.latest = nobodys();
    }
}

// Whether memory for so many entries makes a log.
fn is_log_size(entries: usize) -> bool
    ensures { result ≡ log_size entries }
{
    (1..=65535).contains(&entries)
}

// The places of the latest entries where no station has one.
fn nobodys() -> [usize; 256]
    ensures { latest_of result ≡ (λ p. 0) }
{
    [0; 256]
}
