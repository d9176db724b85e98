// Why a carrier, or a step on its behalf, refuses.
ghost use Rattle.std.specs.Prelude.{◌≡◌};
ghost use Rattle.carrier.specs.Faults.{told};

use refusals::{Layer, Refusal};

#[derive(Clone, Copy, PartialEq, Eq, Debug)]
pub enum CarrierFault {
    // the copy does not wait
    NotWaiting,
    // no message number is left to give
    NumbersUsedUp,
    // the messages do not fit
    NoRoom,
}

// The refusal as a caller is told of it; whoever knows the place adds it.
impl From<CarrierFault> for Refusal {
    ghost from_gives = { λ f r. r ≡ told f };

    fn from(fault: CarrierFault) -> Refusal {
        let number = match fault {
            CarrierFault::NotWaiting => 40,
            CarrierFault::NumbersUsedUp => 41,
            CarrierFault::NoRoom => 42,
        };
        Refusal {
            number,
            layer: Layer::Carrier,
            place: 0,
        }
    }
}
