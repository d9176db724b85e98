// Leave: a station is no longer present, and tells those who stay.
ghost use Rattle.std.specs.Prelude.{◌≡◌, ◌<◌, true, length, [], ◌∷◌, nat_le};
ghost use Rattle.book.specs.Rings.{book_of, can_note};
ghost use Rattle.engine.specs.Mails.{shown_mails};
ghost use Rattle.engine.specs.Memories.{state_of, setup_of, passed, passed_with, Kept, SameLoans, Turned};
ghost use Rattle.network.specs.Books.{crashed_share};
ghost use Rattle.network.specs.Changes.{departed};
ghost use Rattle.network.specs.Keeping.{with_life};
ghost use Rattle.network.specs.Refusals.{first_of, of_actor, unless, churn_test, step_mails};
ghost use Rattle.network.specs.States.{present_total, crashed_total};
ghost use Rattle.network.specs.Steps.{after, outcome};
ghost use Rattle.network.specs.declared.fault.StepFault.TheVariants.{TooFewPresent, TooManyCrashed};
ghost use Rattle.network.specs.declared.station.Life.TheVariants.{Left};
ghost use Rattle.network.specs.declared.step.Step.TheVariants.{Leave};

use crate::crashes::share_allowed;
use crate::mails::{Mails, mails_of};
use crate::memory::Memory;
use crate::passing::hold;
use carrier::interface::Carrier;
use network::{Content, Done, Letter, Outcome, Speech, Station, StepFault, To};
use stations::Stations;

// One station leaves.
fn leave_at<R: Copy>(stations: &mut [Station<R, Stations>], q: usize)
    requires { q < length stations.old }
    ensures { Turned q (with_life Left) stations.old stations.new }
{
    stations[q].leave();
}

impl<'a, R: Copy, C: Carrier<Content<R, Stations>>> Memory<'a, R, C> {
    // Leaves, or is refused.
    pub(crate) fn leave(&mut self, p: u16) -> Outcome<R>
        requires kept { Kept self.old }
        requires note { can_note (book_of self.old.book) ≡ true }
        ensures value { result ≡ outcome (setup_of C.room self.old) (Leave p) (state_of C.waits self.old) }
        ensures after { state_of C.waits self.new ≡ after (setup_of C.room self.old) (Leave p) (state_of C.waits self.old) }
        ensures same { setup_of C.room self.new ≡ setup_of C.room self.old }
        ensures kept { Kept self.new }
        ensures loans { SameLoans self.old self.new }
    {
        let q = self.actor(p)?;
        self.test_leave(q)?;
        let mails = self.leave_mails(q);
        self.test_room(&mails)?;
        let from = self.next;
        self.carry_out_leave(q);
        self.post(&mails);
        Ok(Done {
            sent: mails.count(),
            from,
            ended: None,
        })
    }

    // 30: too many would have come and gone; 31: too few would stay; 32: too many of them would be crashed.
    fn test_leave(&self, q: u8) -> Result<(), StepFault>
        requires kept { Kept self.now }
        ensures { result ≡ passed (first_of (churn_test (setup_of C.room self.now) (state_of C.waits self.now) ∷ unless (nat_le (setup_of C.room self.now).choice.nmin (present_total (departed q (state_of C.waits self.now)))) TooFewPresent ∷ unless (crashed_share (setup_of C.room self.now).choice.delta (crashed_total (departed q (state_of C.waits self.now))) (present_total (departed q (state_of C.waits self.now)))) TooManyCrashed ∷ [])) }
    {
        let choice = self.settings.choice();
        hold(self.book.allows(choice.alpha, self.clock), StepFault::Churn)?;
        let mut present = self.present;
        present.remove(q);
        let mut active = self.active;
        active.remove(q);
        let stay = present.count();
        hold(choice.nmin <= stay, StepFault::TooFewPresent)?;
        let crashed = present.count_without(&active);
        let allowed = share_allowed(choice.delta, crashed, stay);
        hold(allowed, StepFault::TooManyCrashed)
    }

    // It tells those who are active without it.
    fn leave_mails(&self, q: u8) -> Mails<R>
        requires kept { Kept self.now }
        ensures { shown_mails result ≡ step_mails (setup_of C.room self.now) (Leave q) (state_of C.waits self.now) }
    {
        let mut active = self.active;
        active.remove(q);
        let letter = Letter {
            to: To::All,
            content: Content::Leave { of: q },
        };
        mails_of(q, self.clock, &active, self.next, &Speech::One(letter))
    }

    // The station leaves, the limit book notes it, and the copies that wait for it are dropped.
    fn carry_out_leave(&mut self, q: u8)
        requires within { q < self.old.table }
        requires kept { Kept self.old }
        requires note { can_note (book_of self.old.book) ≡ true }
        ensures after { state_of C.waits self.new ≡ departed q (state_of C.waits self.old) }
        ensures same { setup_of C.room self.new ≡ setup_of C.room self.old }
        ensures kept { Kept self.new }
        ensures loans { SameLoans self.old self.new }
    {
        leave_at(self.stations, q as usize);
        self.carrier.drop_for(q);
        // always noted, since the count may rise
        let _ = self.book.note_move();
        self.present.remove(q);
        self.active.remove(q);
    }
}
