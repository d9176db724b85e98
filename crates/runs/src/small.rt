// The numbers of every run, as a theorem.
ghost use Rattle.runs.specs.Small.{NumbersStaySmall};

// Clock, message numbers, echoes, replies, tags, bases, bounds, stamp counts and the log's numbers are far inside their types.
pub fn numbers_stay_small<R>()
    ensures { NumbersStaySmall R }
{}
