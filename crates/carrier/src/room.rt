// The room rule, asked of any carrier whose records are counted.
ghost use Rattle.std.specs.Prelude.{◌≡◌, ℕ, ◌+◌, ◌≤◌, [], ◌∷◌, not, ◌==◌};
ghost use Rattle.carrier.specs.Counts.{under, receivers, load, fits};
ghost use Rattle.carrier.specs.Waits.{Waits};
ghost use Rattle.carrier.specs.declared.message.Held.{Held};

use crate::message::Post;

// What a make that counts its records tells of them.
pub trait Counted<B: Copy> {
    // The copy that waits under a message number for a receiver.
    ghost counted: { Self → Waits (Held B) };

    // How many records were lent.
    ghost size: { Self → ℕ };

    // How many records a message takes, by how many copies of it wait.
    ghost cost: { ℕ → ℕ };

    // What no copy waits of takes none.
    ghost free: { cost 0 ≡ 0 };

    // What waits takes no more records than were lent.
    ghost held: { (s : Self) → load cost (counted s) ≤ size s };

    // How many records the message takes.
    fn cost(&self, item: &Post<B>) -> usize
        ensures value { result ≡ cost (receivers item.now) }
        ensures bound { result ≤ 256 };

    // How many records are left.
    fn left(&self) -> usize
        ensures { result + load cost (counted self.now) ≡ size self.now };

    // Whether a copy waits under the number, for any station.
    fn holds(&self, number: u32) -> bool
        ensures { result ≡ not (under (counted self.now) number == 0) };
}

// Whether a message fits.
pub fn one_fits<B: Copy, C: Counted<B>>(carrier: &C, item: &Post<B>) -> bool
    ensures { result ≡ fits C.cost (C.size carrier.now) (C.counted carrier.now) (item.now ∷ []) }
{
    if item.to.is_empty() {
        return true;
    }
    if carrier.cost(item) > carrier.left() {
        return false;
    }
    !carrier.holds(item.number)
}

// Whether two messages fit, both together.
pub fn two_fit<B: Copy, C: Counted<B>>(carrier: &C, first: &Post<B>, second: &Post<B>) -> bool
    ensures { result ≡ fits C.cost (C.size carrier.now) (C.counted carrier.now) (first.now ∷ second.now ∷ []) }
{
    if first.to.is_empty() {
        return one_fits(carrier, second);
    }
    if second.to.is_empty() {
        return one_fits(carrier, first);
    }
    if carrier.cost(first) + carrier.cost(second) > carrier.left() {
        return false;
    }
    if first.number == second.number {
        return false;
    }
    if carrier.holds(first.number) {
        return false;
    }
    !carrier.holds(second.number)
}
