// Settings that are admitted, by their type: none can be made that break a range or a condition.
ghost use Rattle.std.specs.Prelude.{◌≡◌};
ghost use Rattle.settings.specs.Faults.{outcome};
ghost use Rattle.settings.specs.Admission.{admission, Admitted, start_admission, start_in_range};

use super::choice::Choice;
use super::conditions;
use super::fault::SettingsFault;

// A choice that is admitted.
#[derive(Clone, Copy)]
pub struct Settings {
    choice: Choice,
    ghost admitted: { Admitted choice },
}

impl Settings {
    // The settings of this choice, or the first fault that applies.
    pub fn new(choice: Choice) -> Result<Settings, SettingsFault>
        ensures { outcome result (λ s. s.choice) ≡ admission choice }
    {
        conditions::judge(choice)?;
        Ok(Settings { choice })
    }

    // The choice that was admitted.
    pub fn choice(&self) -> Choice
        ensures { result ≡ self.now.choice }
    {
        self.choice
    }

    // Whether a network of this table may start with so many stations present: two numbers, as a start of any kind has them.
    pub fn admit_start(&self, table: u16, present: u16) -> Result<(), SettingsFault>
        ensures { outcome result (λ u. u) ≡ start_admission self.now.choice table present }
    {
        if !start_in_range(table, present) {
            return Err(SettingsFault::Range);
        }
        if present < self.choice.nmin {
            return Err(SettingsFault::TooFewStations);
        }
        Ok(())
    }
}

// A table has 1 to 256 places, and the stations present, at least one, have room in it.
pub fn start_in_range(table: u16, present: u16) -> bool
    ensures { result ≡ start_in_range table present }
{
    (1..=256).contains(&table) && (1..=table).contains(&present)
}
