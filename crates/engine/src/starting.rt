// A new run: everything that is lent comes into its first state.
ghost use Rattle.std.specs.Prelude.{◌≡◌, ◌≤◌, ◌-◌, ◌++◌, length, take, drop, replicate};
ghost use Rattle.engine.specs.Copies.{shown_room};
ghost use Rattle.engine.specs.Memories.{state_of, setup_of, Kept};
ghost use Rattle.network.specs.Knowing.{most_stations};
ghost use Rattle.network.specs.Logs.{new_log};
ghost use Rattle.network.specs.States.{new_run};
ghost use Rattle.operation_log.specs.Entries.{log_of, places};

use crate::memory::Memory;
use book::LimitBook;
use carrier::interface::Carrier;
use network::{Content, Station};
use operation_log::OperationLog;
use settings::Settings;
use stations::Stations;

// Writes one value into every place.
fn fill<T: Copy>(xs: &mut [T], x: T)
    ensures { xs.new ≡ replicate (length xs.old) x }
{
    for i in 0..xs.len() {
        xs[i] = x;
    }
}

// The first k become founders, and the rest unused.
fn settle<R: Copy>(
    stations: &mut [Station<R, Stations>],
    k: usize,
    founder: Station<R, Stations>,
    unused: Station<R, Stations>,
)
    requires { k ≤ length stations.old }
    ensures { stations.new ≡ replicate k founder ++ replicate (length stations.old - k) unused }
{
    let (founders, others) = stations.split_at_mut(k);
    fill(founders, founder);
    fill(others, unused);
}

impl<'a, R: Copy, C: Carrier<Content<R, Stations>>> Memory<'a, R, C> {
    // A new run with stations 0 to k - 1 present, whatever the memory held.
    pub(crate) fn start(
        settings: Settings,
        first: R,
        table: u16,
        k: u16,
        stations: &'a mut [Station<R, Stations>],
        mut carrier: C,
        log: OperationLog<'a, R>,
    ) -> Memory<'a, R, C>
        requires table { (k ≤ table) × (table ≤ most_stations) × (table ≤ length stations.old) }
        requires log { log_of log ≡ new_log }
        ensures state { state_of C.waits result ≡ new_run (setup_of C.room result) k }
        ensures setup { setup_of C.room result ≡ record { choice = settings.choice; table = table; first = first; room = shown_room (C.room carrier); places = places log.entry } }
        ensures kept { Kept result }
        ensures rest { drop table result.stations.now ≡ drop table stations.old }
        ensures named { result.stations.ghost_name ≡ stations.entry.ghost_name }
        ensures log { result.log ≡ log.entry }
    {
        carrier.clear();
        let founder = Station::founder(first, k);
        let present = founder.known.entered;
        settle(
            &mut stations[..table as usize],
            k as usize,
            founder,
            Station::unused(first),
        );
        Memory {
            settings,
            first,
            stations,
            table,
            carrier,
            log,
            book: LimitBook::new(&settings),
            clock: 0,
            next: 0,
            present,
            active: present,
        }
    }
}
