// A pool: one record of the lent memory for each message, with the receivers for which it still waits.
ghost use Rattle.pool.specs.Meaning.{Whole, Wanted};

use crate::shared::Shared;
use rack::rack::Rack;

pub mod calls;

// The records of a pool, with what they keep to.
#[derive(Drop)]
pub struct Pool<'a, B> {
    rack: Rack<'a, Shared<B>>,
    ghost whole: { Whole rack },
    ghost wanted: { Wanted rack },
}
