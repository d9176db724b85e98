// A network of stations in memory.
ghost use Rattle.std.specs.Prelude.{◌≡◌, false, length, drop, IfOk};
ghost use Rattle.engine.specs.Copies.{shown_room};
ghost use Rattle.engine.specs.Memories.{state_of, setup_of, Kept, SameLoans};
ghost use Rattle.engine.specs.Reached.{Reached};
ghost use Rattle.network.specs.Runs.{start_refusal, then_memory};
ghost use Rattle.network.specs.States.{new_run};
ghost use Rattle.network.specs.Steps.{after, outcome};
ghost use Rattle.network.specs.declared.step.Step.TheVariants.{Tick, Enter, Leave, Crash, Read, Write};
ghost use Rattle.settings.specs.Admission.{start_admission};
ghost use Rattle.settings.specs.Faults.{outcome as told};

use crate::memory::Memory;
use carrier::interface::Carrier;
use network::{Content, Entry, Outcome, Station, Task};
use operation_log::OperationLog;
use settings::{Settings, SettingsFault};
use stations::Stations;

// What it has come to, it came to from a new run by some list of steps.
pub struct Network<'a, R: Copy, C: Carrier<Content<R, Stations>>> {
    memory: Memory<'a, R, C>,
    ghost kept: { Kept memory },
    ghost reached: { ∥ Reached (setup_of C.room memory) (state_of C.waits memory) ∥₁ },
}

impl<'a, R: Copy, C: Carrier<Content<R, Stations>> + Drop> Network<'a, R, C> {
    // A new run with stations 0 to k - 1 of the table present, whatever was lent held; refused 10, 16, and last 17, where memory or
    // carrier is too small.
    pub fn new(
        settings: Settings,
        first: R,
        table: u16,
        k: u16,
        stations: &'a mut [Station<R, Stations>],
        carrier: C,
        entries: &'a mut [Entry<R>],
    ) -> Result<Network<'a, R, C>, SettingsFault>
        ensures value { C.ample carrier → told result (λ _. tt) ≡ start_refusal settings.choice table k (length stations.old) (length entries.old) }
        ensures small { (C.ample carrier → ⊥) → told result (λ _. tt) ≡ then_memory false (start_admission settings.choice table k) }
        ensures after { IfOk result (λ n. state_of C.waits n.memory ≡ new_run (setup_of C.room n.memory) k) }
        ensures setup { IfOk result (λ n. setup_of C.room n.memory ≡ record { choice = settings.choice; table = table; first = first; room = shown_room (C.room carrier); places = length entries.old }) }
        ensures rest { IfOk result (λ n. drop table n.memory.stations.now ≡ drop table stations.old) }
        ensures entries { IfOk result (λ n. n.memory.log.entries.now ≡ entries.old) }
        ensures named { IfOk result (λ n. (n.memory.stations.ghost_name ≡ stations.entry.ghost_name) × (n.memory.log.entries.ghost_name ≡ entries.entry.ghost_name)) }
    {
        settings.admit_start(table, k)?;
        let log = OperationLog::new(entries)?;
        if stations.len() < table as usize || !carrier.is_ample() {
            return Err(SettingsFault::MemorySize);
        }
        let memory = Memory::start(settings, first, table, k, stations, carrier, log);
        Ok(Network { memory })
    }
}

impl<'a, R: Copy, C: Carrier<Content<R, Stations>>> Network<'a, R, C> {
    // The clock rises by 1.
    pub fn tick(&mut self) -> Outcome<R>
        ensures value { result ≡ outcome (setup_of C.room self.old.memory) Tick (state_of C.waits self.old.memory) }
        ensures after { state_of C.waits self.new.memory ≡ after (setup_of C.room self.old.memory) Tick (state_of C.waits self.old.memory) }
        ensures same { setup_of C.room self.new.memory ≡ setup_of C.room self.old.memory }
        ensures loans { SameLoans self.old.memory self.new.memory }
    {
        self.memory.tick()
    }

    // A station that was never used is present, and tells all of its entry.
    pub fn enter(&mut self, p: u16) -> Outcome<R>
        ensures value { result ≡ outcome (setup_of C.room self.old.memory) (Enter p) (state_of C.waits self.old.memory) }
        ensures after { state_of C.waits self.new.memory ≡ after (setup_of C.room self.old.memory) (Enter p) (state_of C.waits self.old.memory) }
        ensures same { setup_of C.room self.new.memory ≡ setup_of C.room self.old.memory }
        ensures loans { SameLoans self.old.memory self.new.memory }
    {
        self.memory.enter(p)
    }

    // The station is no longer present, and tells those who stay.
    pub fn leave(&mut self, p: u16) -> Outcome<R>
        ensures value { result ≡ outcome (setup_of C.room self.old.memory) (Leave p) (state_of C.waits self.old.memory) }
        ensures after { state_of C.waits self.new.memory ≡ after (setup_of C.room self.old.memory) (Leave p) (state_of C.waits self.old.memory) }
        ensures same { setup_of C.room self.new.memory ≡ setup_of C.room self.old.memory }
        ensures loans { SameLoans self.old.memory self.new.memory }
    {
        self.memory.leave(p)
    }

    // The station stays present and does nothing more.
    pub fn crash(&mut self, p: u16) -> Outcome<R>
        ensures value { result ≡ outcome (setup_of C.room self.old.memory) (Crash p) (state_of C.waits self.old.memory) }
        ensures after { state_of C.waits self.new.memory ≡ after (setup_of C.room self.old.memory) (Crash p) (state_of C.waits self.old.memory) }
        ensures same { setup_of C.room self.new.memory ≡ setup_of C.room self.old.memory }
        ensures loans { SameLoans self.old.memory self.new.memory }
    {
        self.memory.crash(p)
    }

    // The station begins to read.
    pub fn read(&mut self, p: u16) -> Outcome<R>
        ensures value { result ≡ outcome (setup_of C.room self.old.memory) (Read p) (state_of C.waits self.old.memory) }
        ensures after { state_of C.waits self.new.memory ≡ after (setup_of C.room self.old.memory) (Read p) (state_of C.waits self.old.memory) }
        ensures same { setup_of C.room self.new.memory ≡ setup_of C.room self.old.memory }
        ensures loans { SameLoans self.old.memory self.new.memory }
    {
        self.memory.begin(p, Task::Read)
    }

    // The station begins to write a record.
    pub fn write(&mut self, p: u16, r: R) -> Outcome<R>
        ensures value { result ≡ outcome (setup_of C.room self.old.memory) (Write p r) (state_of C.waits self.old.memory) }
        ensures after { state_of C.waits self.new.memory ≡ after (setup_of C.room self.old.memory) (Write p r) (state_of C.waits self.old.memory) }
        ensures same { setup_of C.room self.new.memory ≡ setup_of C.room self.old.memory }
        ensures loans { SameLoans self.old.memory self.new.memory }
    {
        self.memory.begin(p, Task::Write(r))
    }
}
