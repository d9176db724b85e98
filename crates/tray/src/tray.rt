// A tray: one record of the lent memory for each copy.
use rack::rack::Rack;

pub mod calls;

// The records of a tray.
#[derive(Drop)]
pub struct Tray<'a, B> {
    rack: Rack<'a, B>,
}
