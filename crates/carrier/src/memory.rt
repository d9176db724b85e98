// Memory that is too small for a carrier.
ghost use Rattle.std.specs.Prelude.{◌≡◌};
ghost use Rattle.carrier.specs.Memory.{small_told, sized};

use refusals::{Layer, Refusal};

// Fewer records were lent than a single step's messages may take. Of its own, since a carrier does not stand on settings.
#[derive(Clone, Copy, PartialEq, Eq, Debug)]
pub struct TooSmall;

// The refusal as a caller is told of it.
impl From<TooSmall> for Refusal {
    ghost from_gives = { λ _ r. r ≡ small_told };

    fn from(_small: TooSmall) -> Refusal {
        Refusal {
            number: 17,
            layer: Layer::Settings,
            place: 0,
        }
    }
}

// Whether so many records are as many as are wanted.
pub fn enough(records: usize, least: usize) -> Result<(), TooSmall>
    ensures { result ≡ sized least records }
{
    if records < least {
        Err(TooSmall)
    } else {
        Ok(())
    }
}
