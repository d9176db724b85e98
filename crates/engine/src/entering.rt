// Enter: a station that was never used is present, and tells all of its entry.
ghost use Rattle.std.specs.Prelude.{◌≡◌, ◌<◌, true, false, not, length, [], ◌∷◌, slice_index_or};
ghost use Rattle.book.specs.Rings.{book_of, can_note};
ghost use Rattle.engine.specs.Mails.{shown_mails};
ghost use Rattle.engine.specs.Memories.{state_of, setup_of, passed_with, Kept, SameLoans, Turned};
ghost use Rattle.network.specs.Changes.{entered};
ghost use Rattle.network.specs.Keeping.{is_used, newcomer};
ghost use Rattle.network.specs.Refusals.{first_of, in_table, unless, churn_test, step_mails};
ghost use Rattle.network.specs.Steps.{after, outcome, has_ended};
ghost use Rattle.network.specs.declared.fault.StepFault.TheVariants.{Used};
ghost use Rattle.network.specs.declared.operation.Operation.TheVariants.{Idle};
ghost use Rattle.network.specs.declared.station.Station.{Station};
ghost use Rattle.network.specs.declared.step.Step.TheVariants.{Enter};
ghost use Rattle.stations.specs.declared.Stations.{Stations};

use crate::mails::{Mails, mails_of};
use crate::memory::Memory;
use crate::passing::hold;
use carrier::interface::Carrier;
use network::{Content, Done, Letter, Life, Outcome, Speech, Station, StepFault, To};
use stations::Stations;

// Whether a number was never used.
fn is_unused<R: Copy>(stations: &[Station<R, Stations>], q: u8) -> bool
    requires { q < length stations.now }
    ensures { (d : Station R Stations) → result ≡ not (is_used (slice_index_or stations.now q d).life) }
{
    matches!(stations[q as usize].life, Life::Unused)
}

// One station enters.
fn enter_at<R: Copy>(stations: &mut [Station<R, Stations>], first: R, q: u8)
    requires { q < length stations.old }
    ensures { Turned q (λ _. newcomer first q) stations.old stations.new }
{
    stations[q as usize] = Station::newcomer(first, q);
}

impl<'a, R: Copy, C: Carrier<Content<R, Stations>>> Memory<'a, R, C> {
    // Enters, or is refused.
    pub(crate) fn enter(&mut self, p: u16) -> Outcome<R>
        requires kept { Kept self.old }
        requires note { can_note (book_of self.old.book) ≡ true }
        requires idle { is_used ((state_of C.waits self.old).stations p).life ≡ false → has_ended ((state_of C.waits self.old).stations p).operation (Idle 0) ≡ false }
        ensures value { result ≡ outcome (setup_of C.room self.old) (Enter p) (state_of C.waits self.old) }
        ensures after { state_of C.waits self.new ≡ after (setup_of C.room self.old) (Enter p) (state_of C.waits self.old) }
        ensures same { setup_of C.room self.new ≡ setup_of C.room self.old }
        ensures kept { Kept self.new }
        ensures loans { SameLoans self.old self.new }
    {
        let q = self.test_enter(p)?;
        let mails = self.enter_mails(q);
        self.test_room(&mails)?;
        let from = self.next;
        self.carry_out_enter(q);
        self.post(&mails);
        Ok(Done {
            sent: mails.count(),
            from,
            ended: None,
        })
    }

    // 20; 21: its number was used; 30: too many would have come and gone.
    fn test_enter(&self, p: u16) -> Result<u8, StepFault>
        requires kept { Kept self.now }
        ensures { result ≡ passed_with p (first_of (in_table (setup_of C.room self.now) p ∷ unless (not (is_used ((state_of C.waits self.now).stations p).life)) Used ∷ churn_test (setup_of C.room self.now) (state_of C.waits self.now) ∷ [])) }
    {
        hold(p < self.table, StepFault::NoStation)?;
        let q = p as u8;
        hold(is_unused(self.stations, q), StepFault::Used)?;
        let alpha = self.settings.choice().alpha;
        hold(self.book.allows(alpha, self.clock), StepFault::Churn)?;
        Ok(q)
    }

    // It tells all of its entry, itself too.
    fn enter_mails(&self, q: u8) -> Mails<R>
        requires within { q < self.now.table }
        requires kept { Kept self.now }
        ensures { shown_mails result ≡ step_mails (setup_of C.room self.now) (Enter q) (state_of C.waits self.now) }
    {
        let mut active = self.active;
        active.insert(q);
        let letter = Letter {
            to: To::All,
            content: Content::Enter { of: q },
        };
        mails_of(q, self.clock, &active, self.next, &Speech::One(letter))
    }

    // The station enters, and the limit book notes it.
    fn carry_out_enter(&mut self, q: u8)
        requires within { q < self.old.table }
        requires kept { Kept self.old }
        requires note { can_note (book_of self.old.book) ≡ true }
        ensures after { state_of C.waits self.new ≡ entered (setup_of C.room self.old) q (state_of C.waits self.old) }
        ensures same { setup_of C.room self.new ≡ setup_of C.room self.old }
        ensures kept { Kept self.new }
        ensures loans { SameLoans self.old self.new }
    {
        enter_at(self.stations, self.first, q);
        // always noted, since the count may rise
        let _ = self.book.note_move();
        self.present.insert(q);
        self.active.insert(q);
    }
}
