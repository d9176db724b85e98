// Prints the report of every file in a list of cases. A case is a line with a name and a file: parts that
// are joined by `+`, each of them bytes in hexadecimal, with `*` and a number where they come more than once.
#![tactic(auto)]

ghost use Rattle.std.specs.Prelude.{◌<◌};

use anyhow::Context;
use judge::{MOST_BYTES, report};
use std::alloc::{AllocError, Global};
use std::fs;

// The value of a hexadecimal digit; any other character counts as 0, a capital too: the library of hexadecimal text reads capitals and refuses the rest.
fn digit(c: u8) -> u8
    ensures { result < 16 }
{
    match c {
        b'0'..=b'9' => c - b'0',
        b'a'..=b'f' => c - b'a' + 10,
        _ => 0,
    }
}

// Adds the bytes that pairs of digits say; an odd last digit says none.
fn add_hex(file: &mut Vec<u8>, digits: &[u8]) -> Result<(), AllocError> {
    for pair in digits.chunks(2) {
        if let [high, low] = pair {
            file.push(digit(*high) * 16 + digit(*low))?;
        }
    }
    Ok(())
}

// Adds the bytes of one part, as often as it says.
fn add_part(file: &mut Vec<u8>, part: &str) -> anyhow::Result<()> {
    let (digits, times) = match part.split_once('*') {
        Some((digits, times)) => (digits, times.parse::<u32>()?),
        None => (part, 1),
    };
    for _ in 0..times {
        add_hex(file, digits.as_bytes())?;
    }
    Ok(())
}

// The file of a case.
fn file_of(heap: Global, parts: &str) -> anyhow::Result<Vec<u8>> {
    let mut file = Vec::new(heap);
    for part in parts.split('+') {
        add_part(&mut file, part)?;
    }
    Ok(file)
}

// Whether a file is right, and comes out the same when its records are written.
fn comes_again(heap: Global, file: &[u8]) -> anyhow::Result<bool> {
    let Ok(placed) = schedule::read(heap, file) else {
        return Ok(false);
    };
    let records = placed.iter().map(|p| p.item).collect::<Vec<_>>(heap)?;
    let mut buffer = vec![in heap; 0u8; MOST_BYTES]?;
    let written = schedule::write(&records, &mut buffer);
    Ok(written.is_ok_and(|len| buffer.get(..len) == Some(file)))
}

fn run(rt: &HostRuntime) -> anyhow::Result<()> {
    let cases = fs::read_to_string(rt, "cases.txt")?;
    let mut same = 0u32;
    for line in cases.lines() {
        let (name, parts) = line.split_once(' ').context("a case has no file")?;
        let file = file_of(rt.alloc(), parts)?;
        rt.println(name)?;
        rt.print(report(rt.alloc(), &file)?)?;
        if comes_again(rt.alloc(), &file)? {
            same = same.saturating_add(1);
        }
    }
    println!(rt; "{same} files read and written again as they were")?;
    Ok(())
}

fn main(rt: HostRuntime) -> anyhow::Result<()> {
    run(&rt)
}
