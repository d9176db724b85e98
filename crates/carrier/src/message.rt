// What a carrier holds and is given.
use stations::Stations;

// What waits for a receiver: who sent it, what it says, and the tick at which it was sent.
#[derive(Clone, Copy, PartialEq, Eq, Debug)]
pub struct Held<B> {
    pub from: u8,
    pub content: B,
    pub sent: u16,
}

// A message to be posted: its number, what each receiver is to find, and who receives it.
#[derive(Clone, Copy)]
pub struct Post<B> {
    pub number: u32,
    pub held: Held<B>,
    pub to: Stations,
}
