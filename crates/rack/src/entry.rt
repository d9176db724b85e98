// One record of the lent memory.
ghost use Rattle.std.specs.Prelude.{◌≡◌};
ghost use Rattle.rack.specs.Entries.{changed_entry};

use carrier::message::Held;

// What is held under a key; a record that is not live waits to be squeezed out.
#[derive(Clone, Copy)]
pub struct Entry<V> {
    // the rank of its key
    pub(crate) key: u64,
    // not an Option: a taken record keeps its tick, so that ticks sent still never fall along the records
    pub(crate) live: bool,
    pub(crate) held: Held<V>,
}

impl<V: Copy> Entry<V> {
    // A record that holds nothing yet, for memory to be lent.
    pub fn vacant(content: V) -> Entry<V> {
        Entry {
            key: 0,
            live: false,
            held: Held {
                from: 0,
                content,
                sent: 0,
            },
        }
    }

    // The record with another content, or dead.
    pub(crate) fn changed(mut self, content: Option<V>) -> Entry<V>
        ensures { result ≡ changed_entry self content }
    {
        self.live = content.is_some();
        if let Some(content) = content {
            self.held.content = content;
        }
        self
    }
}
