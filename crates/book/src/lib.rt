// The limit book as code: arrivals and departures of the last ticks, in a ring of rows.
#![tactic(auto)]

mod book;

pub use book::LimitBook;
