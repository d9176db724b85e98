// What holds of every run of the rules, whatever the record, the room rule, the admitted settings and the steps.
#![tactic(auto)]

mod examples;
mod small;

ghost use Rattle.network.specs.Promises.{PromisesKept, LogsStand};
ghost use Rattle.runs.specs.Basics.{ClockNeverGoesBack, NumbersStayBelowTheNext, EnoughStationsWork};

pub use examples::examples_meet_the_premises;
pub use small::numbers_stay_small;

// The clock never goes back, no copy waits under a number that is still to be given, and enough stations work.
pub fn basics_hold<R>()
    ensures clock { ClockNeverGoesBack R }
    ensures numbers { NumbersStayBelowTheNext R }
    ensures enough { EnoughStationsWork R }
{}

// Over every run reads and writes have a single order as one register would give it, stations join within 2D ticks,
// operations end within 4D ticks, and the log tells exactly the operations, with what they were to write, and for good.
pub fn every_run_keeps_its_promises<R>()
    ensures promises { PromisesKept R }
    ensures logs { LogsStand R }
{}
