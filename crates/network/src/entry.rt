// An entry of the log: one operation.
use crate::operation::Kind;

#[derive(Clone, Copy)]
pub struct Entry<R> {
    pub station: u8,
    pub kind: Kind,
    // of a write its record, of a read the first record until its end, then the record that it gave
    pub value: R,
    pub begin: u16,
    pub end: Option<u16>,
    // replies counted in each phase
    pub replies_one: u32,
    pub replies_two: u32,
}
