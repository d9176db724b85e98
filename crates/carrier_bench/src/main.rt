// Posts, looks and takes a second of both makes, for memories that grow.
#![tactic(auto)]

mod load;

use crate::load::{Times, measure};
use pool::pool::Pool;
use pool::shared::Shared;
use rack::entry::Entry;
use std::env;
use std::time::Duration;
use tray::tray::Tray;

// Calls a second, for so many in such a time.
fn rate(calls: u32, time: Duration) -> u128 {
    (calls as u128).wrapping_mul(1_000_000_000) / time.as_nanos().max(1)
}

// How often the time goes into the base, in hundredths.
fn hundredths(base: Duration, time: Duration) -> u128 {
    base.as_nanos().wrapping_mul(100) / time.as_nanos().max(1)
}

// One line of figures: posts, looks and takes a second, and each in hundredths of the first line's.
fn report(
    rt: &HostRuntime,
    make: &str,
    records: u32,
    calls: u32,
    times: Times,
    base: Times,
) -> anyhow::Result<()> {
    let post = rate(calls, times.post);
    let look = rate(calls, times.look);
    let take = rate(calls, times.take);
    let posts = hundredths(base.post, times.post);
    let looks = hundredths(base.look, times.look);
    let takes = hundredths(base.take, times.take);
    let met = times.met;
    eprintln!(rt;
        "{make} {records}: {post} posts, {look} looks, {take} takes a second; {posts}, {looks}, {takes} hundredths of the smallest; {met} copies met"
    )?;
    Ok(())
}

// A line for each size, of what the runs of a make took.
fn lines<F: Fn(u32) -> anyhow::Result<Times>>(
    rt: &HostRuntime,
    make: &str,
    sizes: [u32; 3],
    calls: u32,
    run: F,
) -> anyhow::Result<()>
    requires { F.IsAlwaysCallable run }
{
    let mut base = None;
    for records in sizes {
        let times = run(records)?;
        let first = *base.get_or_insert(times);
        report(rt, make, records, calls, times, first)?;
    }
    Ok(())
}

fn main(rt: HostRuntime) -> anyhow::Result<()> {
    let large = env::args(&rt)?.count() > 1;
    let calls = if large { 2_000_000 } else { 20_000 };
    lines(&rt, "pool", [256, 4096, 65536], calls, |records| {
        let mut memory = vec![in rt.alloc(); Shared::vacant(0u32); records as usize]?;
        let mut pool = Pool::new(memory.as_mut_slice());
        measure(&rt, &mut pool, records / 2, calls)
    })?;
    lines(&rt, "tray", [257, 4096, 65536], calls, |records| {
        let mut memory = vec![in rt.alloc(); Entry::vacant(0u32); records as usize]?;
        let mut tray = Tray::new(memory.as_mut_slice());
        measure(&rt, &mut tray, records / 2, calls)
    })?;
    println!(rt; "both makes ran at three sizes")?;
    Ok(())
}
