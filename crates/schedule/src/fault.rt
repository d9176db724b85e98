// What is wrong with a schedule file.
ghost use Rattle.std.specs.Prelude.{◌≡◌};
ghost use Rattle.schedule.specs.Faults.{number, flaw_of, told};
ghost use Rattle.schedule.specs.Writing.{told_write};
ghost use Rattle.schedule.specs.declared.fault.WriteFault.TheVariants as write_fault;
ghost use Rattle.schedule.specs.declared.fault.ReadFault.TheVariants.{File, Memory};

use records::Misfit;
use refusals::{Layer, Refusal};
use settings::SettingsFault;
use std::alloc::{AllocError, AllocFailed};

// What can be wrong with one schedule record.
#[derive(Clone, Copy, PartialEq, Eq, Debug)]
pub enum Flaw {
    // fewer bytes are left than the length says, or than a length takes
    Short,
    // no kind has this number
    Kind,
    // not the length of its kind, or too short to hold a kind
    Length,
    // not where its kind may stand, or missing at the end
    Order,
    // a class, a form, a table or a number of stations that there is not
    Range,
}

// Why a schedule file is refused.
#[derive(Clone, Copy, PartialEq, Eq, Debug)]
pub enum FileFault {
    // longer than a file may be
    Oversize,
    // a flaw, with the byte offset of its record
    At { flaw: Flaw, at: usize },
}

impl From<Flaw> for u8 {
    ghost from_gives = { λ f n. n ≡ number f };

    fn from(flaw: Flaw) -> u8 {
        match flaw {
            Flaw::Short => 1,
            Flaw::Kind => 2,
            Flaw::Length => 3,
            Flaw::Order => 4,
            Flaw::Range => 5,
        }
    }
}

// The first flaw that the bytes of a record have.
impl From<Misfit> for Flaw {
    ghost from_gives = { λ m f. f ≡ flaw_of m };

    fn from(misfit: Misfit) -> Flaw {
        match misfit {
            Misfit::WrongLength => Flaw::Length,
            Misfit::UnknownForm => Flaw::Range,
        }
    }
}

// The number, layer and place that a caller is told.
impl From<FileFault> for Refusal {
    ghost from_gives = { λ e r. r ≡ told e };

    fn from(fault: FileFault) -> Refusal {
        match fault {
            FileFault::Oversize => Refusal {
                number: 6,
                layer: Layer::File,
                place: 0,
            },
            FileFault::At { flaw, at } => Refusal {
                number: flaw.into(),
                layer: Layer::File,
                place: at,
            },
        }
    }
}

// Why a file is not read into memory.
#[derive(Clone, Copy, PartialEq, Eq, Debug)]
pub enum ReadFault {
    File(FileFault),
    // no memory is to be had
    Memory,
}

impl From<FileFault> for ReadFault {
    ghost from_gives = { λ e f. f ≡ File e };

    fn from(e: FileFault) -> ReadFault {
        ReadFault::File(e)
    }
}

impl From<AllocError> for ReadFault {
    ghost from_gives = { λ _ f. f ≡ Memory };

    fn from(_: AllocError) -> ReadFault {
        ReadFault::Memory
    }
}

impl<T: Drop> From<AllocFailed<T>> for ReadFault {
    ghost from_gives = { λ _ f. f ≡ Memory };

    fn from(_: AllocFailed<T>) -> ReadFault {
        ReadFault::Memory
    }
}

// Why records are not written.
#[derive(Clone, Copy, PartialEq, Eq, Debug)]
pub enum WriteFault {
    // a reader would refuse the file
    File(FileFault),
    // the buffer may be too small for a file
    Buffer(SettingsFault),
}

// The number, layer and place that a caller is told.
impl From<WriteFault> for Refusal {
    ghost from_gives = { λ e r. r ≡ told_write e };

    fn from(fault: WriteFault) -> Refusal {
        match fault {
            WriteFault::File(e) => e.into(),
            WriteFault::Buffer(e) => e.into(),
        }
    }
}

impl From<FileFault> for WriteFault {
    ghost from_gives = { λ e f. f ≡ write_fault.File e };

    fn from(e: FileFault) -> WriteFault {
        WriteFault::File(e)
    }
}

impl From<SettingsFault> for WriteFault {
    ghost from_gives = { λ e f. f ≡ write_fault.Buffer e };

    fn from(e: SettingsFault) -> WriteFault {
        WriteFault::Buffer(e)
    }
}
