// The limit book as memory: the present tick, and a ring with the rows of the last ticks.
ghost use Rattle.std.specs.Prelude.{◌<◌, ◌≤◌};

mod counting;

// A tick: its arrivals and departures, and how many stations were present when it ended.
#[derive(Clone, Copy, Default)]
pub struct TickRow {
    moves: u32,
    present: u16,
}

#[derive(Clone, Copy)]
pub struct LimitBook {
    // the present tick, which has not ended
    current: TickRow,
    // no VecDeque: a book is of one size, and needs no heap
    rows: [TickRow; 32],
    // the place of the newest row; from there on they are ever older
    newest: usize,
    // how many rows are kept now, and at most
    kept: usize,
    delay: usize,
    ghost within: { (newest < 32) × (kept ≤ delay) × (delay ≤ 32) },
}
