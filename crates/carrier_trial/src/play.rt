// The same calls on a carrier and on what it means.
ghost use Rattle.std.specs.Prelude.{◌≡◌};

use crate::plain::Plain;
use carrier::courier::hand_over;
use carrier::interface::Carrier;
use carrier::message::{Held, Post};
use carrier::owed::Receiver;
use stations::Stations;
use std::alloc::AllocError;

// A station that only says what it got.
#[derive(Clone, Copy)]
struct Ear;

impl Receiver<u32> for Ear {
    type Answer = Held<u32>;

    ghost turned = { λ e _. e };

    ghost answer = { λ _ h. h };

    fn receive(&mut self, held: Held<u32>) -> Held<u32>
        ensures value { result ≡ held }
        ensures after { self.new ≡ self.old }
    {
        held
    }
}

// The next pseudo-random number.
fn roll(seed: &mut u64) -> u64 {
    *seed = seed
        .wrapping_mul(6364136223846793005)
        .wrapping_add(1442695040888963407);
    *seed >> 33
}

// A message with a number that may wait already, and few receivers or none.
fn message(seed: &mut u64, turn: u32) -> Post<u32> {
    let mut to = Stations::none();
    for _ in 0..roll(seed) % 4 {
        to.insert((roll(seed) % 16) as u8);
    }
    let number = if roll(seed) % 4 == 0 {
        (roll(seed) % 64) as u32
    } else {
        turn
    };
    let held = Held {
        from: (roll(seed) % 16) as u8,
        content: (roll(seed) % 1000) as u32,
        sent: (turn % 4096) as u16,
    };
    Post { number, held, to }
}

// A call of a carrier.
#[derive(Clone, Copy)]
enum Call {
    Post(Post<u32>),
    HandOver(u32, u8),
    Look(u32, u8),
    RoomTwo(Post<u32>, Post<u32>),
    Oldest,
    Clear,
    DropFor(u8),
}

// The call of a turn; of sixteen rolls a range is how often a call comes.
fn draw(seed: &mut u64, turn: u32) -> Call {
    let station = (roll(seed) % 16) as u8;
    let number = turn.wrapping_sub((roll(seed) % 8) as u32);
    match roll(seed) % 16 {
        0..=5 => Call::Post(message(seed, turn)),
        6..=9 => Call::HandOver(number, station),
        10 | 11 => Call::Look(number, station),
        12 => {
            let first = message(seed, turn);
            Call::RoomTwo(first, message(seed, turn.wrapping_add(1)))
        }
        13 | 14 => Call::Oldest,
        _ if roll(seed) % 8 == 0 => Call::Clear,
        _ => Call::DropFor(station),
    }
}

// One call, on both; answers whether they agree.
fn agree<C: Carrier<u32>>(
    carrier: &mut C,
    plain: &mut Plain,
    call: &Call,
) -> Result<bool, AllocError> {
    match call {
        Call::Post(item) => {
            let fits = plain.fits(item);
            if fits {
                plain.post(item)?;
            }
            Ok(carrier.post(item).is_ok() == fits)
        }
        Call::HandOver(number, station) => {
            let handed = hand_over(carrier, *number, *station, &mut [Ear; 16]);
            Ok(handed == plain.take(*number, *station))
        }
        Call::Look(number, station) => {
            let seen = carrier.look(*number, *station);
            Ok(seen == plain.look(*number, *station))
        }
        Call::RoomTwo(first, second) => {
            Ok(carrier.room_two(first, second) == plain.fit_both(first, second))
        }
        Call::Oldest => Ok(carrier.oldest() == plain.oldest()),
        Call::Clear => {
            carrier.clear();
            plain.clear();
            Ok(true)
        }
        Call::DropFor(station) => {
            carrier.drop_for(*station);
            plain.drop_for(*station);
            Ok(true)
        }
    }
}

// How many of so many calls are answered differently by a carrier and by what it means.
pub(crate) fn play<C: Carrier<u32>>(
    carrier: &mut C,
    plain: &mut Plain,
    turns: u32,
) -> Result<u32, AllocError> {
    let mut seed = 12345u64;
    let mut wrong = 0u32;
    for turn in 0..turns {
        let call = draw(&mut seed, turn);
        if !agree(carrier, plain, &call)? {
            wrong = wrong.wrapping_add(1);
        }
    }
    Ok(wrong)
}
