// Five choices that are known to be admitted, one for each churn from 0 to 4 hundredths.
ghost use Rattle.std.specs.Prelude.{◌≡◌};
ghost use Rattle.settings.specs.Shipped.{row, shipped_rows, ShippedAdmitted};

use super::choice::Choice;

// A choice by its six numbers.
fn row(alpha: u16, delta: u16, beta: u16, gamma: u16, nmin: u16, d: u16) -> Choice
    ensures { result ≡ row alpha delta beta gamma nmin d }
{
    Choice {
        alpha,
        delta,
        beta,
        gamma,
        nmin,
        d,
    }
}

// The five rows at a longest delay of `d` ticks.
pub fn shipped(d: u16) -> [Choice; 5]
    ensures rows { result ≡ shipped_rows d }
    ensures admitted { ShippedAdmitted }
{
    [
        row(0, 20, 70, 75, 5, d),
        row(1, 12, 72, 80, 100, d),
        row(2, 8, 74, 78, 50, d),
        row(3, 5, 75, 76, 34, d),
        row(4, 3, 76, 75, 25, d),
    ]
}
