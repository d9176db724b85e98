// What one record of a pool holds.
ghost use Rattle.std.specs.Prelude.{◌≡◌};
ghost use Rattle.pool.specs.Pooled.{opened, lesser, shared_by};

use carrier::message::Held;
use rack::entry::Entry;
use rack::sift::Trim;
use stations::Stations;

// The content of a message, with the receivers for which it still waits.
#[derive(Clone, Copy)]
pub struct Shared<B> {
    content: B,
    to: Stations,
}

impl<B: Copy> Shared<B> {
    // A record that holds nothing yet, for memory to be lent.
    pub fn vacant(content: B) -> Entry<Shared<B>> {
        Entry::vacant(Shared {
            content,
            to: Stations::none(),
        })
    }
}

// A message to be kept for its receivers.
pub(crate) fn share<B: Copy>(held: Held<B>, to: Stations) -> Held<Shared<B>>
    ensures { result ≡ shared_by held to }
{
    Held {
        from: held.from,
        content: Shared {
            content: held.content,
            to,
        },
        sent: held.sent,
    }
}

// The copy for a station, where it still waits.
pub(crate) fn open<B: Copy>(message: Option<Held<Shared<B>>>, station: u8) -> Option<Held<B>>
    ensures { result ≡ opened message station }
{
    let Held {
        from,
        content: Shared { content, to },
        sent,
    } = message?;
    to.contains(station).then_some(Held {
        from,
        content,
        sent,
    })
}

// The message without one receiver, or nothing where it was the last.
#[tactic(auto, unfolding(crate::specs::Pooled::lesser))]
pub(crate) fn without<B: Copy>(message: Shared<B>, station: u8) -> Option<Shared<B>>
    ensures { result ≡ lesser station message }
{
    let Shared { content, mut to } = message;
    to.remove(station);
    (!to.is_empty()).then_some(Shared { content, to })
}

// Every copy for one station goes.
#[derive(Clone, Copy)]
pub(crate) struct Leaving {
    pub(crate) station: u8,
}

impl<B: Copy> Trim<Shared<B>> for Leaving {
    ghost trimmed = { λ l q v. lesser l.station v };

    fn trim(&self, _station: u8, content: &Shared<B>) -> Option<Shared<B>> {
        without(*content, self.station)
    }
}
