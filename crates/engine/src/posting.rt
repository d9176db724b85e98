// Posting: whether the messages of a step have room, and their way into the carrier.
ghost use Rattle.std.specs.Prelude.{◌≡◌, true, [], ◌∷◌, None};
ghost use Rattle.carrier.specs.Waits.{posted};
ghost use Rattle.engine.specs.Copies.{shown_waits};
ghost use Rattle.engine.specs.Mails.{posts_of, shown_mails, after_mails, SameBeside};
ghost use Rattle.engine.specs.Memories.{state_of, setup_of, passed, Kept, SameLoans};
ghost use Rattle.network.specs.Posting.{with_mails};
ghost use Rattle.network.specs.Refusals.{mail_test, first_of, unless};
ghost use Rattle.network.specs.declared.fault.StepFault.TheVariants.{Carrier as OfCarrier};
ghost use Rattle.carrier.specs.declared.fault.CarrierFault.TheVariants.{NumbersUsedUp, NoRoom};

use crate::mails::Mails;
use crate::memory::Memory;
use crate::passing::hold;
use carrier::fault::CarrierFault;
use carrier::interface::Carrier;
use carrier::message::Post;
use network::{Content, StepFault};
use stations::Stations;

// The largest message number.
const LAST: u32 = 1_000_000;

// 41 ahead of 42.
#[tactic(auto, unfolding(network::specs::Refusals::first_of))]
fn numbers_then_room(numbers: bool, room: bool) -> Result<(), StepFault>
    ensures { result ≡ passed (first_of (unless numbers (OfCarrier NumbersUsedUp) ∷ unless room (OfCarrier NoRoom) ∷ [])) }
{
    hold(numbers, StepFault::from(CarrierFault::NumbersUsedUp))?;
    hold(room, StepFault::from(CarrierFault::NoRoom))
}

// Posts a message that fits.
fn post_one<R: Copy, C: Carrier<Content<R, Stations>>>(
    carrier: &mut C,
    mail: &Post<Content<R, Stations>>,
)
    requires { C.room carrier.old (C.waits carrier.old) (mail.now ∷ []) ≡ true }
    ensures after { C.waits carrier.new ≡ posted mail.now (C.waits carrier.old) }
    ensures same { C.room carrier.new ≡ C.room carrier.old }
{
    // never refused, since it fits
    let _ = carrier.post(mail);
}

// Posts messages that fit all together.
fn post_all<R: Copy, C: Carrier<Content<R, Stations>>>(carrier: &mut C, mails: &Mails<R>)
    requires { C.room carrier.old (C.waits carrier.old) (posts_of mails.now) ≡ true }
    ensures after { shown_waits (C.waits carrier.new) ≡ with_mails (shown_mails mails.now) (shown_waits (C.waits carrier.old)) }
    ensures same { C.room carrier.new ≡ C.room carrier.old }
{
    match mails {
        Mails::Nothing => {}
        Mails::One(a) => post_one(carrier, a),
        Mails::Two(a, b) => {
            post_one(carrier, a);
            post_one(carrier, b);
        }
    }
}

impl<'a, R: Copy, C: Carrier<Content<R, Stations>>> Memory<'a, R, C> {
    // 41: a message would have no number; 42: the messages have no room.
    pub(crate) fn test_room(&self, mails: &Mails<R>) -> Result<(), StepFault>
        ensures { result ≡ passed (mail_test (setup_of C.room self.now).room (state_of C.waits self.now).waits (state_of C.waits self.now).next (shown_mails mails.now)) }
    {
        match mails {
            Mails::Nothing => Ok(()),
            Mails::One(a) => numbers_then_room(self.next <= LAST, self.carrier.room_one(a)),
            Mails::Two(a, b) => numbers_then_room(self.next < LAST, self.carrier.room_two(a, b)),
        }
    }

    // Posts the messages of a step that have room, and their numbers are given.
    pub(crate) fn post(&mut self, mails: &Mails<R>)
        requires room { mail_test (setup_of C.room self.old).room (state_of C.waits self.old).waits (state_of C.waits self.old).next (shown_mails mails.now) ≡ None }
        requires kept { Kept self.old }
        ensures after { state_of C.waits self.new ≡ after_mails (shown_mails mails.now) (state_of C.waits self.old) }
        ensures same { setup_of C.room self.new ≡ setup_of C.room self.old }
        ensures kept { Kept self.new }
        ensures beside { SameBeside self.old self.new }
        ensures loans { SameLoans self.old self.new }
    {
        post_all(&mut self.carrier, mails);
        self.next += mails.count() as u32;
    }
}
