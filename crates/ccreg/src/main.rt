// Judges the schedule file on standard input, and prints what it says or why it is refused.
#![tactic(auto)]

use judge::{MOST_BYTES, report};
use std::io::Read;

// One byte more than a file may have, so that a longer file is told from the longest.
const ENOUGH: u64 = MOST_BYTES as u64 + 1;

fn run(rt: &HostRuntime) -> anyhow::Result<()> {
    let mut file = Vec::new(rt.alloc());
    rt.stdin().take(ENOUGH).read_to_end(&mut file)?;
    rt.print(report(rt.alloc(), file.as_slice())?)?;
    Ok(())
}

fn main(rt: HostRuntime) -> anyhow::Result<()> {
    run(&rt)
}
