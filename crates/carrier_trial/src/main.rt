// Long pseudo-random sequences of calls on a pool and a tray, held against a plain map of copies.
#![tactic(auto)]

mod plain;
mod play;

use crate::plain::{Plain, Record};
use crate::play::play;
use carrier::interface::Carrier;
use pool::pool::Pool;
use pool::shared::Shared;
use rack::entry::Entry;
use tray::tray::Tray;

const TURNS: u32 = 40_000;

// Plays on a carrier of so many records, and says how it went.
fn trial<C: Carrier<u32>>(
    rt: &HostRuntime,
    make: &str,
    carrier: &mut C,
    record: Record,
    records: usize,
) -> anyhow::Result<()> {
    let mut plain = Plain::new(rt.alloc(), record, records);
    let wrong = play(carrier, &mut plain, TURNS)?;
    println!(rt; "{make} of {records}: {TURNS} calls, {wrong} answers differ")?;
    Ok(())
}

fn main(rt: HostRuntime) -> anyhow::Result<()> {
    let mut memory = [Shared::vacant(0u32); 6];
    let mut pool = Pool::new(&mut memory);
    trial(&rt, "pool", &mut pool, Record::PerMessage, 6)?;
    let mut memory = [Entry::vacant(0u32); 257];
    let mut tray = Tray::new(&mut memory);
    trial(&rt, "tray", &mut tray, Record::PerCopy, 257)
}
