// A carrier kept half full while messages come and go.
ghost use Rattle.std.specs.Prelude.{◌≡◌};

use carrier::courier::hand_over;
use carrier::interface::Carrier;
use carrier::message::{Held, Post};
use carrier::owed::Receiver;
use stations::Stations;
use std::ops::Range;
use std::time::{Duration, Instant};

// How long the calls of each kind took, and how many copies they met.
#[derive(Clone, Copy, Default)]
pub(crate) struct Times {
    pub(crate) post: Duration,
    pub(crate) look: Duration,
    pub(crate) take: Duration,
    // seen and taken
    pub(crate) met: usize,
}

// A station that says what the copy says; the trial has its own, since no program stands on another.
#[derive(Clone, Copy)]
struct Ear;

impl Receiver<u32> for Ear {
    type Answer = u32;

    ghost turned = { λ e _. e };

    ghost answer = { λ _ h. h.content };

    fn receive(&mut self, held: Held<u32>) -> u32
        ensures value { result ≡ held.content }
        ensures after { self.new ≡ self.old }
    {
        held.content
    }
}

// A message to one station.
fn message(number: u32) -> Post<u32> {
    let mut to = Stations::none();
    to.insert(0);
    Post {
        number,
        held: Held {
            from: 1,
            content: 7,
            sent: (number / 64 % 60_000) as u16,
        },
        to,
    }
}

fn posts<C: Carrier<u32>>(carrier: &mut C, numbers: Range<u32>) {
    for number in numbers {
        let _ = carrier.post(&message(number));
    }
}

fn looks<C: Carrier<u32>>(carrier: &C, numbers: Range<u32>) -> usize {
    numbers
        .filter(|number| carrier.look(*number, 0).is_some())
        .count()
}

fn takes<C: Carrier<u32>>(carrier: &mut C, numbers: Range<u32>) -> usize {
    numbers
        .filter(|number| hand_over(carrier, *number, 0, &mut [Ear; 1]).is_some())
        .count()
}

// Does the work, and adds the time that it took.
fn timed<T: Drop, F: FnOnce() -> T>(
    rt: &HostRuntime,
    total: &mut Duration,
    work: F,
) -> anyhow::Result<T>
    requires { F.IsAlwaysCallable work }
{
    let start = Instant::now(rt)?;
    let answer = work();
    *total = total.saturating_add(start.elapsed(rt)?);
    Ok(answer)
}

// Rounds of posts, looks and takes, over a carrier that holds so many copies.
pub(crate) fn measure<C: Carrier<u32>>(
    rt: &HostRuntime,
    carrier: &mut C,
    held: u32,
    calls: u32,
) -> anyhow::Result<Times> {
    posts(carrier, 0..held);
    let mut times = Times::default();
    for round in 0..calls / 64 {
        let low = round.wrapping_mul(64);
        let high = low.wrapping_add(64);
        let more = low.wrapping_add(held)..high.wrapping_add(held);
        timed(rt, &mut times.post, || posts(carrier, more))?;
        let seen = timed(rt, &mut times.look, || looks(carrier, low..high))?;
        let taken = timed(rt, &mut times.take, || takes(carrier, low..high))?;
        times.met = times.met.wrapping_add(seen).wrapping_add(taken);
    }
    Ok(times)
}
