// The judgement of a whole schedule file: the file first, then its settings, then its start.
ghost use Rattle.std.specs.Prelude.{◌≡◌};
ghost use Rattle.schedule.specs.Reading.{read_of};
ghost use Rattle.judge.specs.Contents.{nothing};
ghost use Rattle.settings.specs.Faults.{outcome as outcome_of};
ghost use Rattle.judge.specs.Judging.{outcome, surveyed, said_of, admitted, judged};

use crate::contents::Contents;
use crate::fault::Fault;
use schedule::{FileFault, Reader};
use settings::{Settings, SettingsFault};

// What the file says where it is accepted, or the first fault that applies.
pub fn judge(file: &[u8]) -> Result<Contents, Fault>
    ensures { outcome result ≡ judged file.now }
{
    let contents = survey(file)?;
    admit(&contents)?;
    Ok(contents)
}

// Whether the settings are admitted, and the start under them.
fn admit(contents: &Contents) -> Result<(), SettingsFault>
    ensures { outcome_of result (λ _. contents.now) ≡ admitted contents.now }
{
    let settings = Settings::new(contents.choice)?;
    settings.admit_start(contents.table, contents.present)
}

// What the whole file says, or its first fault.
fn survey(file: &[u8]) -> Result<Contents, FileFault>
    ensures { surveyed result ≡ said_of nothing (read_of file.now) }
{
    let mut reader = Reader::open(file)?;
    let mut contents = Contents::new();
    while let Some(placed) = reader.next()? {
        contents.note(&placed.item);
    }
    Ok(contents)
}
