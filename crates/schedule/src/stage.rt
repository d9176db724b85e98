// What a schedule file has come to: settings first, a start second, then steps.
ghost use Rattle.std.specs.Prelude.{◌≡◌, ◌<◌};
ghost use Rattle.schedule.specs.Items.{shown};
ghost use Rattle.schedule.specs.Rules.{stage_after, start_judged};
ghost use Rattle.schedule.specs.Writing.{stage_past_item};

use crate::fault::Flaw;
use crate::{Record, Start};
use records::{Class, Misfit};
use settings::start_in_range;

// What is to come next.
#[derive(Clone, Copy)]
pub enum Stage {
    Settings,
    Start,
    // steps over records of the class that the start named
    Steps(Class),
}

impl Stage {
    // The stage after a record that stands where it may.
    pub(crate) fn after(self, r: &Record<'_>) -> Stage
        ensures { result ≡ stage_after self (shown r.now) }
    {
        match r {
            Record::Settings(_) => Stage::Start,
            Record::Start(start) => Stage::Steps(start.class),
            _ => self,
        }
    }

    // The stage after a record that a reader would accept here, or its flaw.
    pub(crate) fn past(self, item: &Record<'_>) -> Result<Stage, Flaw>
        ensures { result ≡ stage_past_item self (shown item.now) }
    {
        match (self, *item) {
            (_, Record::Start(start)) => start.judge(self)?,
            (Stage::Steps(class), Record::Write { value, .. }) => class.shape(value)?,
            (Stage::Settings, Record::Settings(_)) => {}
            (Stage::Steps(_), Record::Settings(_)) => return Err(Flaw::Order),
            (Stage::Steps(_), _) => {}
            _ => return Err(Flaw::Order),
        }
        Ok(self.after(item))
    }
}

impl Start<'_> {
    // Whether a start may stand at a stage and says what it may, or its smallest flaw.
    pub(crate) fn judge(self, stage: Stage) -> Result<(), Flaw>
        ensures value { result ≡ start_judged stage self.entry.class self.entry.table self.entry.present self.entry.first.now }
        ensures short { (self.entry.table < 65536) × (self.entry.present < 65536) }
    {
        match self.class.shape(self.first) {
            Err(Misfit::WrongLength) => Err(Flaw::Length),
            _ if !matches!(stage, Stage::Start) => Err(Flaw::Order),
            Ok(()) if start_in_range(self.table, self.present) => Ok(()),
            _ => Err(Flaw::Range),
        }
    }
}
