// A test of a step.
ghost use Rattle.std.specs.Prelude.{◌≡◌};
ghost use Rattle.engine.specs.Memories.{passed};
ghost use Rattle.network.specs.Refusals.{unless};

use network::StepFault;

// Passed where it holds, else the fault.
pub(crate) fn hold(test: bool, fault: StepFault) -> Result<(), StepFault>
    ensures { result ≡ passed (unless test fault) }
{
    if test { Ok(()) } else { Err(fault) }
}
