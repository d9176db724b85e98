// The range of each of the six numbers.
ghost use Rattle.std.specs.Prelude.{◌≡◌};
ghost use Rattle.settings.specs.Ranges.{at_most, in_range};

use super::choice::Choice;

// The lowest numbers that may be chosen.
const LOWEST: Choice = Choice {
    alpha: 0,
    delta: 0,
    beta: 1,
    gamma: 1,
    nmin: 1,
    d: 1,
};

// The highest numbers that may be chosen.
const HIGHEST: Choice = Choice {
    alpha: 15,
    delta: 100,
    beta: 100,
    gamma: 100,
    nmin: 256,
    d: 32,
};

// Each number is in its range.
pub(crate) fn in_range(choice: Choice) -> bool
    ensures { result ≡ in_range choice }
{
    at_most(LOWEST, choice) && at_most(choice, HIGHEST)
}

// No number of the first choice is above that of the second; a derived order would stop at the first that differs.
fn at_most(low: Choice, high: Choice) -> bool
    ensures { result ≡ at_most low high }
{
    low.alpha <= high.alpha
        && low.delta <= high.delta
        && low.beta <= high.beta
        && low.gamma <= high.gamma
        && low.nmin <= high.nmin
        && low.d <= high.d
}
