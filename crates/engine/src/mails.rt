// The messages of a step: letters with numbers, for those who are active.
ghost use Rattle.std.specs.Prelude.{◌≡◌, ◌≤◌, ◌+◌, length, option_map, if◌then◌else◌, Some, None};
ghost use Rattle.engine.specs.Copies.{shown_post};
ghost use Rattle.engine.specs.Mails.{posts_of, shown_mails};
ghost use Rattle.std.specs.Option.{option_to_list};
ghost use Rattle.network.specs.Posting.{receivers, anybody, mail, mails};
ghost use Rattle.network.specs.Refusals.{last_number};
ghost use Rattle.network.specs.Saying.{letters};
ghost use Rattle.network.specs.Shown.{shown_letter, shown_speech};
ghost use Rattle.stations.specs.Members.{member};

use carrier::message::{Held, Post};
use network::{Content, Letter, Speech, To};
use stations::Stations;

// Not two Options: a second message would have a place without a first.
#[derive(Drop)]
pub enum Mails<R> {
    Nothing,
    One(Post<Content<R, Stations>>),
    Two(Post<Content<R, Stations>>, Post<Content<R, Stations>>),
}

impl<R: Copy> Mails<R> {
    pub(crate) fn count(&self) -> u8
        ensures { result ≡ length (shown_mails self.now) }
    {
        match self {
            Mails::Nothing => 0,
            Mails::One(_) => 1,
            Mails::Two(_, _) => 2,
        }
    }
}

// Who receives, of those who are active.
fn receivers(to: To, active: &Stations) -> Stations
    ensures { member result ≡ receivers to (member active.now) }
{
    match to {
        To::All => *active,
        To::Only(p) => {
            let mut only = Stations::none();
            if active.contains(p) {
                only.insert(p);
            }
            only
        }
    }
}

// The message of a letter under a number, where it has a receiver.
fn mail_of<R: Copy>(
    from: u8,
    clock: u16,
    active: &Stations,
    number: u32,
    letter: &Letter<R, Stations>,
) -> Option<Post<Content<R, Stations>>>
    ensures { option_map shown_post result ≡ (if anybody (receivers letter.now.to (member active.now)) then Some (mail from clock (member active.now) number (shown_letter letter.now)) else None) }
{
    let to = receivers(letter.to, active);
    if to.is_empty() {
        return None;
    }
    let held = Held {
        from,
        content: letter.content,
        sent: clock,
    };
    Some(Post { number, held, to })
}

// The message of a letter, where there is one.
fn at_most_one<R: Copy>(mail: Option<Post<Content<R, Stations>>>) -> Mails<R>
    ensures { posts_of result ≡ option_to_list mail }
{
    match mail {
        None => Mails::Nothing,
        Some(only) => Mails::One(only),
    }
}

// The messages of a speech, numbered from the next on; a letter without a receiver is none and takes no number.
pub(crate) fn mails_of<R: Copy>(
    from: u8,
    clock: u16,
    active: &Stations,
    next: u32,
    speech: &Speech<R, Stations>,
) -> Mails<R>
    requires { next ≤ last_number + 1 }
    ensures { shown_mails result ≡ mails from clock (member active.now) next (letters (shown_speech speech.now)) }
{
    match speech {
        Speech::Silent => Mails::Nothing,
        Speech::One(a) => at_most_one(mail_of(from, clock, active, next, a)),
        Speech::Two(a, b) => match mail_of(from, clock, active, next, a) {
            None => at_most_one(mail_of(from, clock, active, next, b)),
            Some(first) => match mail_of(from, clock, active, next + 1, b) {
                None => Mails::One(first),
                Some(second) => Mails::Two(first, second),
            },
        },
    }
}
