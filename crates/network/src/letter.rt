// What a station sends.
use crate::content::Content;

// Whom it is for: every station, or one.
// Not an Option: none would read as nobody, and this is everyone.
#[derive(Clone, Copy)]
pub enum To {
    All,
    Only(u8),
}

#[derive(Clone, Copy)]
pub struct Letter<R, S> {
    pub to: To,
    pub content: Content<R, S>,
}

// What a station says on hearing a message: at most two letters, in this order.
// Not two Options: a second letter would have a place without a first.
#[derive(Clone, Copy)]
pub enum Speech<R, S> {
    Silent,
    One(Letter<R, S>),
    Two(Letter<R, S>, Letter<R, S>),
}
