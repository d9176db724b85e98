// A record with its stamp: what a station holds, and what it offers to others.
ghost use Rattle.std.specs.Prelude.{◌≡◌, if◌then◌else◌};
ghost use Rattle.network.specs.Stamps.{higher};

use crate::stamp::Stamp;

#[derive(Clone, Copy)]
pub struct Register<R> {
    pub value: R,
    pub stamp: Stamp,
}

impl<R: Copy> Register<R> {
    // Takes the offer, record and stamp, where its stamp is higher.
    #[tactic(auto, using(std::proofs::lemmas::Bool::Decides::nat_tests), unfolding(crate::specs::Stamps::higher))]
    pub(crate) fn take_offer(&mut self, offer: Register<R>)
        ensures { self.new ≡ (if higher offer.stamp self.old.stamp then offer else self.old) }
    {
        if offer.stamp > self.stamp {
            *self = offer;
        }
    }
}
