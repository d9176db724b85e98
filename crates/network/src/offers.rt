// What a station does on messages about records: it answers queries, takes offers, and counts replies to its own operation.
ghost use Rattle.std.specs.Prelude.{◌≡◌, true, if◌then◌else◌};
ghost use Rattle.network.specs.Hearing.{take_offer, count_response, count_ack};
ghost use Rattle.network.specs.Limits.{can_rise};
ghost use Rattle.network.specs.Saying.{to_all, to_only, began_two};
ghost use Rattle.network.specs.Shown.{shown, shown_speech};
ghost use Rattle.network.specs.declared.content.Content.TheVariants.{Response, Update, Ack, UpdateEcho};
ghost use Rattle.network.specs.declared.letter.Speech.TheVariants.{Silent, One, Two};

use crate::content::Content;
use crate::letter::{Letter, Speech};
use crate::register::Register;
use crate::station::Station;
use settings::Choice;
use stations::Stations;

impl<R: Copy> Station<R, Stations> {
    // Takes the offer where its stamp is higher.
    #[tactic(auto, unfolding(crate::specs::Stamps::newer))]
    pub(crate) fn take_offer(&mut self, offer: Register<R>)
        ensures { shown self.new ≡ take_offer offer (shown self.old) }
    {
        self.register.take_offer(offer);
    }

    // 7: one that has joined answers the asker.
    pub(crate) fn hear_query(&self, asker: u8, tag: u32) -> Speech<R, Stations>
        ensures { shown_speech result ≡ (if self.now.joined then One (to_only asker (Response self.now.register tag)) else Silent) }
    {
        if self.joined {
            Speech::One(Letter::to_only(
                asker,
                Content::Response {
                    register: self.register,
                    tag,
                },
            ))
        } else {
            Speech::Silent
        }
    }

    // 8: counts a response; where phase two began, it spreads what it then holds.
    pub(crate) fn hear_response(
        &mut self,
        me: u8,
        offer: Register<R>,
        tag: u32,
        choice: &Choice,
    ) -> Speech<R, Stations>
        requires { can_rise (shown self.old) (Response offer tag) ≡ true }
        ensures value { shown_speech result ≡ (if began_two self.old.operation self.new.operation then One (to_all (Update self.new.register tag me)) else Silent) }
        ensures after { shown self.new ≡ count_response choice.now me offer tag self.old.operation (shown self.old) }
    {
        if self.count_response(me, offer, tag, choice) {
            Speech::to_all(Content::Update {
                register: self.register,
                tag,
                asker: me,
            })
        } else {
            Speech::Silent
        }
    }

    // 9: takes the offer; one that has joined acknowledges it, and then every receiver echoes what it holds.
    pub(crate) fn hear_update(
        &mut self,
        offer: Register<R>,
        tag: u32,
        asker: u8,
    ) -> Speech<R, Stations>
        ensures value { shown_speech result ≡ (if self.old.joined then Two (to_only asker (Ack tag)) (to_all (UpdateEcho (take_offer offer (shown self.old)).register)) else One (to_all (UpdateEcho (take_offer offer (shown self.old)).register))) }
        ensures after { shown self.new ≡ take_offer offer (shown self.old) }
    {
        self.take_offer(offer);
        let echo = Letter::to_all(Content::UpdateEcho {
            register: self.register,
        });
        if self.joined {
            Speech::Two(Letter::to_only(asker, Content::Ack { tag }), echo)
        } else {
            Speech::One(echo)
        }
    }

    // 10: counts an ack.
    pub(crate) fn hear_ack(&mut self, tag: u32, choice: &Choice) -> Speech<R, Stations>
        requires { can_rise (shown self.old) (Ack tag) ≡ true }
        ensures value { shown_speech result ≡ Silent }
        ensures after { shown self.new ≡ count_ack choice.now tag self.old.operation (shown self.old) }
    {
        self.count_ack(tag, choice);
        Speech::Silent
    }

    // 11: takes the offer.
    pub(crate) fn hear_update_echo(&mut self, offer: Register<R>) -> Speech<R, Stations>
        ensures value { shown_speech result ≡ Silent }
        ensures after { shown self.new ≡ take_offer offer (shown self.old) }
    {
        self.take_offer(offer);
        Speech::Silent
    }
}
