// Why settings, a start or lent memory are refused, and what the caller is told.
ghost use Rattle.std.specs.Prelude.{◌≡◌};
ghost use Rattle.settings.specs.Faults.{told};

use refusals::{Layer, Refusal};

#[derive(Clone, Copy, PartialEq, Eq, Debug)]
pub enum SettingsFault {
    // a number is out of its range
    Range,
    // the stations that stay present through churn may all be crashed
    SurvivorsTooFew,
    // a station that joins may hear no joined one
    JoinersUnheard,
    // a station that joins may wait for more echoes than there are
    JoinBoundTooHigh,
    // a phase may wait for more answers than there are
    QuorumTooHigh,
    // two quorums need not meet
    QuorumsApart,
    // fewer stations are present at the start than the settings ask for
    TooFewStations,
    // the memory that is lent has a wrong size
    MemorySize,
}

// What a caller is told of this fault.
impl From<SettingsFault> for Refusal {
    ghost from_gives = { λ fault r. r ≡ told fault };

    fn from(fault: SettingsFault) -> Refusal {
        let number = match fault {
            SettingsFault::Range => 10,
            SettingsFault::SurvivorsTooFew => 11,
            SettingsFault::JoinersUnheard => 12,
            SettingsFault::JoinBoundTooHigh => 13,
            SettingsFault::QuorumTooHigh => 14,
            SettingsFault::QuorumsApart => 15,
            SettingsFault::TooFewStations => 16,
            SettingsFault::MemorySize => 17,
        };
        Refusal {
            number,
            layer: Layer::Settings,
            place: 0,
        }
    }
}
