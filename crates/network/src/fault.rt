// Why a step is refused, and what the caller is told.
ghost use Rattle.std.specs.Prelude.{◌≡◌};
ghost use Rattle.network.specs.Faults.{log_number, told};
ghost use Rattle.network.specs.declared.fault.StepFault.TheVariants.{Carrier, Log};

use carrier::fault::CarrierFault;
use refusals::{Layer, Refusal};

#[derive(Clone, Copy, PartialEq, Eq, Debug)]
pub enum LogFault {
    // every entry has been opened
    Full,
}

#[derive(Clone, Copy, PartialEq, Eq, Debug)]
pub enum StepFault {
    // no station of the table has this number
    NoStation,
    // the number was used before
    Used,
    NotPresent,
    Crashed,
    NotJoined,
    // an operation of the station is under way
    UnderWay,
    // more arrivals and departures than the limit book allows
    Churn,
    // fewer stations would be present than the settings ask for
    TooFewPresent,
    // a larger share of the stations would be crashed than the settings allow
    TooManyCrashed,
    // a copy is due in this tick
    CopyDue,
    // the clock has come to its end
    ClockEnd,
    Carrier(CarrierFault),
    Log(LogFault),
}

impl From<LogFault> for u8 {
    ghost from_gives = { λ f n. n ≡ log_number f };

    fn from(fault: LogFault) -> u8 {
        match fault {
            LogFault::Full => 50,
        }
    }
}

impl StepFault {
    // What a caller is told of this fault at the step of this ordinal, from 1.
    // Not a From: it takes the ordinal too.
    pub fn refusal(&self, ordinal: usize) -> Refusal
        ensures { result ≡ told ordinal self.now }
    {
        let (number, layer) = match self {
            StepFault::NoStation => (20, Layer::Step),
            StepFault::Used => (21, Layer::Step),
            StepFault::NotPresent => (22, Layer::Step),
            StepFault::Crashed => (23, Layer::Step),
            StepFault::NotJoined => (24, Layer::Step),
            StepFault::UnderWay => (25, Layer::Step),
            StepFault::Churn => (30, Layer::Step),
            StepFault::TooFewPresent => (31, Layer::Step),
            StepFault::TooManyCrashed => (32, Layer::Step),
            StepFault::CopyDue => (33, Layer::Step),
            StepFault::ClockEnd => (34, Layer::Step),
            StepFault::Carrier(f) => (Refusal::from(*f).number, Layer::Carrier),
            StepFault::Log(f) => (u8::from(*f), Layer::Log),
        };
        Refusal {
            number,
            layer,
            place: ordinal,
        }
    }
}

impl From<CarrierFault> for StepFault {
    ghost from_gives = { λ e f. f ≡ Carrier e };

    fn from(e: CarrierFault) -> StepFault {
        StepFault::Carrier(e)
    }
}

impl From<LogFault> for StepFault {
    ghost from_gives = { λ e f. f ≡ Log e };

    fn from(e: LogFault) -> StepFault {
        StepFault::Log(e)
    }
}
