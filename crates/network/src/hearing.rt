// What a station does on hearing a message: it changes in place, and says what it then sends.
ghost use Rattle.std.specs.Prelude.{◌≡◌, true, if◌then◌else◌, Some, None};
ghost use Rattle.network.specs.Hearing.{hear};
ghost use Rattle.network.specs.Limits.{can_rise};
ghost use Rattle.network.specs.Saying.{says};
ghost use Rattle.network.specs.Shown.{shown, shown_content, shown_speech, shown_answer};

use crate::content::Content;
use crate::letter::Speech;
use crate::station::Station;
use settings::Choice;
use stations::Stations;

impl<R: Copy> Station<R, Stations> {
    // Applies a message to station `me`, and gives what it says; where a number cannot rise, nothing changes.
    // `me` and `choice` stay two arguments: the one is a place of the table, the other is the network's, and rules name each.
    pub fn receive(
        &mut self,
        me: u8,
        content: Content<R, Stations>,
        choice: &Choice,
    ) -> Option<Speech<R, Stations>>
        ensures value { shown_answer result ≡ (if can_rise (shown self.old) (shown_content content) then Some (says me (shown_content content) (shown self.old) (hear choice.now me (shown_content content) (shown self.old))) else None) }
        ensures after { shown self.new ≡ (if can_rise (shown self.old) (shown_content content) then hear choice.now me (shown_content content) (shown self.old) else shown self.old) }
    {
        if self.can_rise(&content) {
            Some(self.hear(me, content, choice))
        } else {
            None
        }
    }

    // Whether every number that the message could raise can rise. No type holds what it says, since that is of a station and
    // a message together: it is asked once, and required on the way down.
    #[tactic(auto, unfolding(crate::specs::Limits::can_rise))]
    fn can_rise(&self, content: &Content<R, Stations>) -> bool
        ensures { result ≡ can_rise (shown self.now) (shown_content content.now) }
    {
        match content {
            Content::EnterEcho { .. } => self.echoes < u32::MAX,
            Content::Response { register, .. } => {
                register.stamp.count < u32::MAX
                    && self.register.stamp.count < u32::MAX
                    && self.operation.replies_can_rise()
            }
            Content::Ack { .. } => self.operation.replies_can_rise(),
            _ => true,
        }
    }

    // The eleven messages.
    #[tactic(auto, unfolding(crate::specs::Hearing::hear, crate::specs::Saying::says))]
    fn hear(
        &mut self,
        me: u8,
        content: Content<R, Stations>,
        choice: &Choice,
    ) -> Speech<R, Stations>
        requires { can_rise (shown self.old) (shown_content content) ≡ true }
        ensures value { shown_speech result ≡ says me (shown_content content) (shown self.old) (hear choice.now me (shown_content content) (shown self.old)) }
        ensures after { shown self.new ≡ hear choice.now me (shown_content content) (shown self.old) }
    {
        match content {
            Content::Enter { of } => self.hear_enter(of),
            Content::EnterEcho {
                known,
                register,
                joined,
                of,
            } => self.hear_echo(me, &known, register, joined, of, choice),
            Content::Joined { of } => self.hear_joined(of),
            Content::JoinedEcho { of } => self.hear_joined_echo(of),
            Content::Leave { of } => self.hear_leave(of),
            Content::LeaveEcho { of } => self.hear_leave_echo(of),
            Content::Query { asker, tag } => self.hear_query(asker, tag),
            Content::Response { register, tag } => self.hear_response(me, register, tag, choice),
            Content::Update {
                register,
                tag,
                asker,
            } => self.hear_update(register, tag, asker),
            Content::Ack { tag } => self.hear_ack(tag, choice),
            Content::UpdateEcho { register } => self.hear_update_echo(register),
        }
    }
}
