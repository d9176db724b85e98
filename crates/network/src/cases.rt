// Worked cases of the rules, as a theorem.
ghost use Rattle.network.specs.Worked.{WorkedCases};

// The worked cases hold of the rules: settings, limit book, the worked example, and a newcomer that joins and reads.
pub fn worked_cases_hold()
    ensures { WorkedCases }
{}
