// Worked cases of the rules, as a theorem.
ghost use Rattle.settings.specs.Bench.{SettingsCases};

// The worked cases hold of the rules.
pub fn settings_cases_hold()
    ensures { SettingsCases }
{}
