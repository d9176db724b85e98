// How new a record is.

// Stamps compare by count, then by writer: no writer is below every station.
#[derive(Clone, Copy, PartialEq, Eq, PartialOrd, Ord)]
pub struct Stamp {
    pub count: u32,
    pub writer: Option<u8>,
}
