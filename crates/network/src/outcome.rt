// What a step came to.
use crate::entry::Entry;
use crate::fault::StepFault;

#[derive(Clone, Copy)]
pub struct Done<R> {
    // how many messages were sent
    pub sent: u8,
    // the number of the first, or the next one where none was
    pub from: u32,
    // the operation that ended
    pub ended: Option<Entry<R>>,
}

// A step is done, or refused.
pub type Outcome<R> = Result<Done<R>, StepFault>;
