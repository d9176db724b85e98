// The calls of the limit book: a move is noted, a tick ends, and whether one more move is allowed.
ghost use Rattle.std.specs.Prelude.{◌≡◌, ◌+◌, ◌%◌, ◌≤◌, min, true, if◌then◌else◌, slice_set};
ghost use Rattle.network.specs.Books.{new_book, with_move, end_tick, allows};
ghost use Rattle.network.specs.Limits.{may_rise};
ghost use Rattle.book.specs.Rings.{book_of, can_note};

use super::{LimitBook, TickRow};
use settings::Settings;

impl TickRow {
    // One arrival or departure more.
    fn note(&mut self)
        requires { may_rise self.old.moves ≡ true }
        ensures { self.new ≡ record { moves = self.old.moves + 1; present = self.old.present } }
    {
        self.moves += 1;
    }
}

// `same` stands at each call that changes a book: no type says of a field that it stays as it was.
impl LimitBook {
    // The book of a new run: nothing has moved, and no tick has ended.
    #[tactic(auto, unfolding(crate::specs::Rings::ring))]
    pub fn new(settings: &Settings) -> LimitBook
        ensures start { book_of result ≡ new_book }
        ensures same { result.delay ≡ settings.now.choice.d }
    {
        LimitBook::empty(settings.choice().d as usize)
    }

    // No row is kept yet, and at most so many will be.
    fn empty(delay: usize) -> LimitBook
        requires { delay ≤ 32 }
        ensures current { result.current.moves ≡ 0 }
        ensures kept { result.kept ≡ 0 }
        ensures same { result.delay ≡ delay }
    {
        LimitBook {
            current: TickRow::default(),
            rows: [TickRow::default(); 32],
            newest: 0,
            kept: 0,
            delay,
        }
    }

    // Notes an arrival or departure in the present tick; where the count cannot rise, nothing changes.
    // A bool, as a set's `insert` answers: there is one way to fail, and it has no number.
    pub fn note_move(&mut self) -> bool
        ensures value { result ≡ can_note (book_of self.old) }
        ensures after { book_of self.new ≡ (if can_note (book_of self.old) then with_move (book_of self.old) else book_of self.old) }
        ensures same { self.new.delay ≡ self.old.delay }
    {
        // lent by its field: a method that returned it would owe a clause on what the loan leaves behind
        let row = &mut self.current;
        if row.moves == u32::MAX {
            return false;
        }
        row.note();
        true
    }

    // Ends the present tick with so many stations present, and begins the next.
    pub fn end_tick(&mut self, present: u16)
        ensures after { book_of self.new ≡ end_tick self.old.delay present (book_of self.old) }
        ensures same { self.new.delay ≡ self.old.delay }
    {
        let moves = self.current.moves;
        self.push(TickRow { moves, present });
        self.current = TickRow::default();
    }

    // Writes a row ahead of the newest; that of the oldest tick may make room for it.
    fn push(&mut self, row: TickRow)
        ensures rows { self.new.rows ≡ slice_set self.old.rows self.new.newest row }
        ensures newest { self.new.newest ≡ (self.old.newest + 31) % 32 }
        ensures kept { self.new.kept ≡ min (self.old.kept + 1) self.old.delay }
        ensures same { self.new.delay ≡ self.old.delay }
    {
        let place = (self.newest + 31) % 32;
        self.rows[place] = row;
        self.newest = place;
        self.kept = (self.kept + 1).min(self.delay);
    }

    // Whether one more arrival or departure is allowed now, by every tick that is kept.
    pub fn allows(&self, alpha: u16, clock: u16) -> bool
        ensures { result ≡ allows alpha clock (book_of self.now) }
    {
        if clock == 0 {
            return false;
        }
        let mut moves = self.current.moves as u64 + 1;
        // by place: a chain of the two parts of the ring takes twice as long
        for i in 0..self.kept {
            let row = self.rows[(self.newest + i) % 32];
            if 100 * moves > alpha as u64 * row.present as u64 {
                return false;
            }
            moves += row.moves as u64;
        }
        true
    }
}
