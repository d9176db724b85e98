// A pass over the records that keeps, in place and in order, what a rule leaves of each live one.
ghost use Rattle.std.specs.Prelude.{◌≡◌, ℕ, ◌≤◌, length, take, Option};
ghost use Rattle.rack.specs.Entries.{Follows, rest_of, sifted};

use crate::entry::Entry;
use carrier::message::Held;

// A rule that changes contents by station, or removes copies.
pub trait Trim<V: Copy> {
    // What is left of the content of a copy for a station.
    ghost trimmed: { Self → ℕ → V → Option V };

    fn trim(&self, station: u8, content: &V) -> Option<V>
        ensures { result ≡ trimmed self.now station content.now };
}

// What the rule leaves of a record. That the rule may be called is asked each time, since no type says it of a closure.
fn rest<V: Copy, F: Fn(u8, V) -> Option<V>>(entry: Entry<V>, rule: &F) -> Option<Entry<V>>
    requires { F.IsAlwaysCallable rule.now }
    ensures { (f : ℕ → V → Option V) → Follows (F.post rule.now) f → result ≡ rest_of f entry }
{
    let Entry { key, live, held } = entry;
    if !live {
        return None;
    }
    let content = rule((key % 256) as u8, held.content)?;
    Some(Entry {
        key,
        live: true,
        held: Held {
            from: held.from,
            content,
            sent: held.sent,
        },
    })
}

// Keeps what the rule leaves of the records in front, and answers how many there are.
pub(crate) fn sift_in<V: Copy, F: Fn(u8, V) -> Option<V>>(
    records: &mut [Entry<V>],
    rule: &F,
) -> usize
    requires { F.IsAlwaysCallable rule.now }
    ensures kept { (f : ℕ → V → Option V) → Follows (F.post rule.now) f → take result records.new ≡ sifted f records.old }
    ensures within { result ≤ length records.old }
{
    let mut count = 0;
    // by place: what is left is written among the records that are still read
    for i in 0..records.len() {
        if let Some(left) = rest(records[i], rule) {
            records[count] = left;
            count += 1;
        }
    }
    count
}
