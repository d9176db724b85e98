// Schedule files: settings, a start, and steps, each a schedule record of its own length and kind.
#![tactic(auto)]

use records::Class;
use settings::Choice;

mod decide;
mod fault;
mod frame;
mod reader;
mod spelling;
mod stage;
mod whole;
mod writer;

pub use fault::{FileFault, Flaw, ReadFault, WriteFault};
pub use reader::{MOST_BYTES, Reader};
pub use stage::Stage;
pub use whole::{check, read};
pub use writer::write;

// A start: the class of all records, the places of the table, the stations present, and the bytes of their first record.
#[derive(Clone, Copy, Drop)]
pub struct Start<'a> {
    pub class: Class,
    pub table: u16,
    pub present: u16,
    pub first: &'a [u8],
}

// A schedule record. The record bytes of a start and of a write are parts of the file.
#[derive(Clone, Copy, Drop)]
pub enum Record<'a> {
    Settings(Choice),
    Start(Start<'a>),
    Tick,
    Enter(u16),
    Leave(u16),
    Crash(u16),
    Read(u16),
    Write { station: u16, value: &'a [u8] },
    Deliver { message: u32, station: u16 },
}

// A schedule record and the byte offset at which it stands in the file.
#[derive(Clone, Copy, Drop)]
pub struct Placed<'a> {
    pub at: usize,
    pub item: Record<'a>,
}
