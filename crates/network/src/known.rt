// What a station knows of the others. `S` is how a set of stations is kept.

// The stations that it knows as entered, as joined and as left.
#[derive(Clone, Copy)]
pub struct Known<S> {
    pub entered: S,
    pub joined: S,
    pub left: S,
}
