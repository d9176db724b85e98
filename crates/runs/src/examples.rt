// Examples of runs, as a theorem.
ghost use Rattle.runs.specs.Examples.{NewcomerReadsWhatWasWritten, UnfinishedWriteIsRead, OperationHasItsTime};

// From admitted starts: a station enters, joins and reads what another wrote; a read gives the record of a write whose
// station crashed; and an operation has all the ticks in which it has to end.
pub fn examples_meet_the_premises()
    ensures newcomer { NewcomerReadsWhatWasWritten }
    ensures unfinished { UnfinishedWriteIsRead }
    ensures time { OperationHasItsTime }
{}
