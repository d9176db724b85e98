// Read and write: a station begins an operation, and asks for records.
ghost use Rattle.std.specs.Prelude.{◌≡◌, ◌+◌, ◌<◌, true, not, [], ◌∷◌, length, None, nat_lt, slice_index_or};
ghost use Rattle.engine.specs.Beginnings.{beginning};
ghost use Rattle.engine.specs.Mails.{shown_mails};
ghost use Rattle.engine.specs.Memories.{state_of, setup_of, passed, passed_with, Kept, SameLoans, Turned};
ghost use Rattle.network.specs.Changes.{begin, begun};
ghost use Rattle.network.specs.Keeping.{tag_of, under_way};
ghost use Rattle.network.specs.Limits.{can_begin};
ghost use Rattle.network.specs.Posting.{mails};
ghost use Rattle.network.specs.Refusals.{first_of, unless, of_actor, mail_test};
ghost use Rattle.network.specs.Saying.{to_all};
ghost use Rattle.network.specs.Shown.{shown};
ghost use Rattle.network.specs.Steps.{after, outcome};
ghost use Rattle.network.specs.declared.content.Content.TheVariants.{Query};
ghost use Rattle.network.specs.declared.fault.LogFault.TheVariants.{Full};
ghost use Rattle.network.specs.declared.fault.StepFault.TheVariants.{NotJoined, UnderWay, Log};
ghost use Rattle.network.specs.declared.station.Station.{Station};
ghost use Rattle.operation_log.specs.Entries.{can_open, log_of, places};
ghost use Rattle.stations.specs.Members.{member};
ghost use Rattle.stations.specs.declared.Stations.{Stations};

use crate::mails::{Mails, mails_of};
use crate::memory::Memory;
use crate::passing::hold;
use carrier::interface::Carrier;
use network::{
    Content, Done, Letter, LogFault, Operation, Outcome, Speech, Station, StepFault, Task, To,
};
use stations::Stations;

// The station of a number.
fn station_at<R: Copy>(stations: &[Station<R, Stations>], q: usize) -> Station<R, Stations>
    requires { q < length stations.now }
    ensures { (d : Station R Stations) → result ≡ slice_index_or stations.now q d }
{
    stations[q]
}

// The tag of a station that may begin an operation. 24: it has not joined; 25: one is under way.
fn idle_tag<R: Copy>(station: &Station<R, Stations>) -> Result<u32, StepFault>
    ensures { result ≡ passed_with (tag_of station.now.operation) (first_of (unless station.now.joined NotJoined ∷ unless (not (under_way station.now.operation)) UnderWay ∷ [])) }
{
    hold(station.joined, StepFault::NotJoined)?;
    match station.operation {
        Operation::Idle { tag } => Ok(tag),
        Operation::PhaseOne { .. } | Operation::PhaseTwo { .. } => Err(StepFault::UnderWay),
    }
}

// One station begins an operation.
fn begin_at<R: Copy>(stations: &mut [Station<R, Stations>], q: usize, task: Task<R>)
    requires within { q < length stations.old }
    requires rises { (d : Station R Stations) → can_begin (shown (slice_index_or stations.old q d)) ≡ true }
    ensures { Turned q (begin task) stations.old stations.new }
{
    // never none, since its tag can rise
    let _ = stations[q].begin(task);
}

impl<'a, R: Copy, C: Carrier<Content<R, Stations>>> Memory<'a, R, C> {
    // Begins the operation, or is refused.
    pub(crate) fn begin(&mut self, p: u16, task: Task<R>) -> Outcome<R>
        requires kept { Kept self.old }
        requires rises { can_begin ((state_of C.waits self.old).stations p) ≡ true }
        ensures value { result ≡ outcome (setup_of C.room self.old) (beginning p task) (state_of C.waits self.old) }
        ensures after { state_of C.waits self.new ≡ after (setup_of C.room self.old) (beginning p task) (state_of C.waits self.old) }
        ensures same { setup_of C.room self.new ≡ setup_of C.room self.old }
        ensures kept { Kept self.new }
        ensures loans { SameLoans self.old self.new }
    {
        let (q, tag) = self.test_ready(p)?;
        let mails = self.query(q, tag);
        self.test_places(&mails)?;
        let from = self.next;
        self.carry_out_begin(q, task);
        self.post(&mails);
        Ok(Done {
            sent: mails.count(),
            from,
            ended: None,
        })
    }

    // 20, 22, 23, 24, 25: whether the station may begin an operation; and the tag of that operation.
    fn test_ready(&self, p: u16) -> Result<(u8, u32), StepFault>
        requires kept { Kept self.now }
        requires rises { can_begin ((state_of C.waits self.now).stations p) ≡ true }
        ensures { result ≡ passed_with (p, tag_of ((state_of C.waits self.now).stations p).operation + 1) (first_of (of_actor (setup_of C.room self.now) p (state_of C.waits self.now) (unless ((state_of C.waits self.now).stations p).joined NotJoined ∷ unless (not (under_way ((state_of C.waits self.now).stations p).operation)) UnderWay ∷ []))) }
    {
        let q = self.actor(p)?;
        let stations = &*self.stations;
        let tag = idle_tag(&station_at(stations, q as usize))?;
        Ok((q, tag + 1))
    }

    // The query of an operation.
    fn query(&self, q: u8, tag: u32) -> Mails<R>
        requires kept { Kept self.now }
        ensures { shown_mails result ≡ mails q self.now.clock (member self.now.active) self.now.next (to_all (Query q tag) ∷ []) }
    {
        let letter = Letter {
            to: To::All,
            content: Content::Query { asker: q, tag },
        };
        mails_of(q, self.clock, &self.active, self.next, &Speech::One(letter))
    }

    // 41, 42: the query has no number or no room; 50: the log is full.
    fn test_places(&self, mails: &Mails<R>) -> Result<(), StepFault>
        ensures { result ≡ passed (first_of (mail_test (setup_of C.room self.now).room (state_of C.waits self.now).waits (state_of C.waits self.now).next (shown_mails mails.now) ∷ unless (nat_lt (length (state_of C.waits self.now).log.entries) (setup_of C.room self.now).places) (Log Full) ∷ [])) }
    {
        self.test_room(mails)?;
        hold(self.log.has_room(), StepFault::from(LogFault::Full))
    }

    // The station begins, and a log entry opens.
    fn carry_out_begin(&mut self, q: u8, task: Task<R>)
        requires within { q < self.old.table }
        requires rises { can_begin ((state_of C.waits self.old).stations q) ≡ true }
        requires opens { can_open (places self.old.log) (log_of self.old.log) ≡ true }
        requires kept { Kept self.old }
        ensures after { state_of C.waits self.new ≡ begun (setup_of C.room self.old) q task (state_of C.waits self.old) }
        ensures same { setup_of C.room self.new ≡ setup_of C.room self.old }
        ensures kept { Kept self.new }
        ensures loans { SameLoans self.old self.new }
    {
        begin_at(self.stations, q as usize, task);
        // never refused, since there is room
        let _ = self.log.open(self.first, q, task, self.clock);
    }
}
