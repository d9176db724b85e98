// How a station comes to be, leaves and crashes.
ghost use Rattle.std.specs.Prelude.{◌≡◌, min, nat_lt};
ghost use Rattle.stations.specs.Members.{member};
ghost use Rattle.network.specs.Keeping.{unused_station, founder, newcomer, with_life, with_crashed};
ghost use Rattle.network.specs.Knowing.{most_stations};
ghost use Rattle.network.specs.Shown.{shown};
ghost use Rattle.network.specs.declared.station.Life.TheVariants.{Left};

use crate::known::Known;
use crate::operation::Operation;
use crate::register::Register;
use crate::stamp::Stamp;
use crate::station::{Life, Station};
use stations::Stations;

impl<R: Copy> Station<R, Stations> {
    // A number of the table that is not used.
    pub fn unused(first: R) -> Station<R, Stations>
        ensures { shown result ≡ unused_station first }
    {
        Station {
            life: Life::Unused,
            crashed: false,
            joined: false,
            known: Known::nobody(),
            register: Register {
                value: first,
                stamp: Stamp {
                    count: 0,
                    writer: None,
                },
            },
            echoes: 0,
            bound: None,
            operation: Operation::Idle { tag: 0 },
        }
    }

    // A station of a new run with stations 0 to k - 1: it has joined, and knows all of them as entered and joined.
    pub fn founder(first: R, k: u16) -> Station<R, Stations>
        ensures { shown result ≡ founder first (min k most_stations) }
    {
        let all = first_stations(k);
        let mut x = Station::unused(first);
        x.life = Life::Present;
        x.joined = true;
        x.known.entered = all;
        x.known.joined = all;
        x
    }

    // A station at its entry: it knows of itself only.
    pub fn newcomer(first: R, p: u8) -> Station<R, Stations>
        ensures { shown result ≡ newcomer first p }
    {
        let mut x = Station::unused(first);
        x.life = Life::Present;
        x.known.note_entered(p);
        x
    }

    // It is no longer present; all else stays as it is.
    pub fn leave(&mut self)
        ensures { shown self.new ≡ with_life Left (shown self.old) }
    {
        self.life = Life::Left;
    }

    // It stays present and does nothing more; all else stays as it is.
    pub fn crash(&mut self)
        ensures { shown self.new ≡ with_crashed (shown self.old) }
    {
        self.crashed = true;
    }
}

// Stations 0 to k - 1, of the 256 that there are.
fn first_stations(k: u16) -> Stations
    ensures { member result ≡ (λ p. nat_lt p (min k most_stations)) }
{
    let end = k.min(256);
    let mut all = Stations::none();
    // counted and cast: the range up to the last u8 takes three times as long
    for p in 0..end {
        all.insert(p as u8);
    }
    all
}
