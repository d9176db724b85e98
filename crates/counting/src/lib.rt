// Counting stations under churn: how many pass a test, how far churn moves their number, and what the conditions on the settings give.
// Each function stands for what it ensures.
#![tactic(auto)]

ghost use Rattle.counting.specs.Census.{TwoLargeSetsMeet};
ghost use Rattle.counting.specs.Windows.{GrowthOverWindows};
ghost use Rattle.counting.specs.Conditions.{SomeoneLasts, SomeoneCountedLasts, EchoesSuffice, RepliesSuffice, QuorumsOverlap};
ghost use Rattle.counting.specs.Limits.{LimitsSuffice, LimitsCanBeKept};

// Two large sets of stations meet.
pub fn large_sets_meet()
    ensures { TwoLargeSetsMeet }
{}

// Churn stays in bounds over up to four windows.
pub fn churn_stays_in_bounds()
    ensures { GrowthOverWindows }
{}

// Each of the five conditions on the settings is enough for its use, in numbers.
pub fn conditions_suffice()
    ensures survivors { SomeoneLasts }
    ensures joiners { SomeoneCountedLasts }
    ensures joins { EchoesSuffice }
    ensures phases { RepliesSuffice }
    ensures quorums { QuorumsOverlap }
{}

// The same of the stations of a run that keeps its limits; and limits can be kept.
pub fn limits_suffice()
    ensures suffice { LimitsSuffice }
    ensures kept { LimitsCanBeKept }
{}
