// Why a schedule file is refused, by the layer that refuses it.
ghost use Rattle.std.specs.Prelude.{◌≡◌, Some};
ghost use Rattle.refusals.specs.Texts.{refusal_text};
ghost use Rattle.judge.specs.Faults.{told};
ghost use Rattle.judge.specs.declared.fault.Fault.TheVariants.{File, Settings};

use refusals::Refusal;
use schedule::FileFault;
use settings::SettingsFault;
use std::fmt;

// Not the fault of a writer, whose second case is lent memory that is too small.
#[derive(Clone, Copy)]
pub enum Fault {
    // the file itself is wrong
    File(FileFault),
    // its settings, or its start under them, are not admitted
    Settings(SettingsFault),
}

// What a caller is told of a fault.
impl From<Fault> for Refusal {
    ghost from_gives = { λ e r. r ≡ told e };

    fn from(fault: Fault) -> Refusal {
        match fault {
            Fault::File(fault) => fault.into(),
            Fault::Settings(fault) => fault.into(),
        }
    }
}

impl From<FileFault> for Fault {
    ghost from_gives = { λ e f. f ≡ File e };

    fn from(e: FileFault) -> Fault {
        Fault::File(e)
    }
}

impl From<SettingsFault> for Fault {
    ghost from_gives = { λ e f. f ≡ Settings e };

    fn from(e: SettingsFault) -> Fault {
        Fault::Settings(e)
    }
}

impl fmt::Display for Fault {
    ghost output = { λ x. Some (refusal_text (told x)) };

    fn fmt<W: fmt::Write>(&self, f: &mut fmt::Formatter<W>) -> fmt::Result {
        let refusal = Refusal::from(*self);
        write!(f, "{refusal}")
    }
}
