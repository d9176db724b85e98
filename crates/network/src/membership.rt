// What a station does on messages about who has entered, joined and left.
ghost use Rattle.std.specs.Prelude.{◌≡◌, true, not, ◌&&◌, if◌then◌else◌};
ghost use Rattle.network.specs.Hearing.{hear_joined, join, count_echo, hear_echo};
ghost use Rattle.network.specs.Keeping.{with_known};
ghost use Rattle.network.specs.Knowing.{note_entered, note_left};
ghost use Rattle.network.specs.Limits.{may_rise, can_rise};
ghost use Rattle.network.specs.Saying.{to_all};
ghost use Rattle.network.specs.Shown.{shown, shown_known, shown_speech};
ghost use Rattle.network.specs.declared.content.Content.TheVariants.{EnterEcho, Joined, JoinedEcho, LeaveEcho};
ghost use Rattle.network.specs.declared.letter.Speech.TheVariants.{Silent, One};

use crate::content::Content;
use crate::known::Known;
use crate::letter::Speech;
use crate::register::Register;
use crate::station::Station;
use settings::Choice;
use stations::Stations;

impl<R: Copy> Station<R, Stations> {
    // 1: notes p entered, and echoes what it knows.
    pub(crate) fn hear_enter(&mut self, p: u8) -> Speech<R, Stations>
        ensures value { shown_speech result ≡ One (to_all (EnterEcho (note_entered p (shown_known self.old.known)) self.old.register self.old.joined p)) }
        ensures after { shown self.new ≡ with_known (note_entered p (shown_known self.old.known)) (shown self.old) }
    {
        self.known.note_entered(p);
        Speech::to_all(Content::EnterEcho {
            known: self.known,
            register: self.register,
            joined: self.joined,
            of: p,
        })
    }

    // 2: adds the sets and takes the offer; an echo of its own entry may let it join, which it then says.
    #[tactic(auto, unfolding(crate::specs::Limits::can_rise))]
    pub(crate) fn hear_echo(
        &mut self,
        me: u8,
        known: &Known<Stations>,
        offer: Register<R>,
        sender_joined: bool,
        of: u8,
        choice: &Choice,
    ) -> Speech<R, Stations>
        requires { can_rise (shown self.old) (EnterEcho (shown_known known.now) offer sender_joined of) ≡ true }
        ensures value { shown_speech result ≡ (if self.new.joined && not self.old.joined then One (to_all (Joined me)) else Silent) }
        ensures after { shown self.new ≡ hear_echo choice.now me (shown_known known.now) offer sender_joined of (shown self.old) }
    {
        let was_joined = self.joined;
        self.known.add(known);
        self.take_offer(offer);
        if of == me && !was_joined {
            self.count_echo(me, sender_joined, choice);
        }
        if self.joined && !was_joined {
            Speech::to_all(Content::Joined { of: me })
        } else {
            Speech::Silent
        }
    }

    // An echo of its own entry: it is counted, sets the bound where it may, and lets it join where there are enough.
    fn count_echo(&mut self, me: u8, sender_joined: bool, choice: &Choice)
        requires { may_rise self.old.echoes ≡ true }
        ensures { shown self.new ≡ count_echo choice.now me sender_joined (shown self.old) }
    {
        self.echoes += 1;
        if sender_joined && self.bound.is_none() {
            self.bound = Some(self.known.present());
        }
        if let Some(bound) = self.bound {
            if 100 * self.echoes as u64 >= choice.gamma as u64 * bound as u64 {
                self.join(me);
            }
        }
    }

    // Joins: it notes itself joined.
    fn join(&mut self, me: u8)
        ensures { shown self.new ≡ join me (shown self.old) }
    {
        self.joined = true;
        self.known.note_joined(me);
    }

    // 3: notes p entered and joined, and echoes it.
    pub(crate) fn hear_joined(&mut self, p: u8) -> Speech<R, Stations>
        ensures value { shown_speech result ≡ One (to_all (JoinedEcho p)) }
        ensures after { shown self.new ≡ hear_joined p (shown self.old) }
    {
        self.known.note_entered(p);
        self.known.note_joined(p);
        Speech::to_all(Content::JoinedEcho { of: p })
    }

    // 4: notes p entered and joined.
    pub(crate) fn hear_joined_echo(&mut self, p: u8) -> Speech<R, Stations>
        ensures value { shown_speech result ≡ Silent }
        ensures after { shown self.new ≡ hear_joined p (shown self.old) }
    {
        self.known.note_entered(p);
        self.known.note_joined(p);
        Speech::Silent
    }

    // 5: notes p left, and echoes it.
    pub(crate) fn hear_leave(&mut self, p: u8) -> Speech<R, Stations>
        ensures value { shown_speech result ≡ One (to_all (LeaveEcho p)) }
        ensures after { shown self.new ≡ with_known (note_left p (shown_known self.old.known)) (shown self.old) }
    {
        self.known.note_left(p);
        Speech::to_all(Content::LeaveEcho { of: p })
    }

    // 6: notes p left.
    pub(crate) fn hear_leave_echo(&mut self, p: u8) -> Speech<R, Stations>
        ensures value { shown_speech result ≡ Silent }
        ensures after { shown self.new ≡ with_known (note_left p (shown_known self.old.known)) (shown self.old) }
    {
        self.known.note_left(p);
        Speech::Silent
    }
}
