// Days that should behave as the rules say, each reported on standard output under its name by the reference, to which a store is held. The expected
// output is not ours: `peer/expected.sh` has an independent program work it out from the files that
// `scenarios DIR` writes.
#![tactic(auto)]

mod named;
mod random;
#[cfg(test)]
mod tests;

use named::DAYS;
use report::{FileError, FileText};
use std::alloc::Global;
use std::io::Write;
use std::{env, fs};
use store::capacity::FULL;

const RANDOM_DAYS: u64 = 40;

// One day: its name, and its command file.
#[derive(Drop)]
struct Day {
    name: String,
    file: Vec<u8>,
}

// The command file of a text; no text, no bytes.
fn packed(heap: Global, text: &str) -> anyhow::Result<Vec<u8>> {
    if text.is_empty() {
        return Ok(Vec::new(heap));
    }
    Ok(convert::pack(heap, text.as_bytes())?)
}

fn named_day(heap: Global, name: &str, text: &str, tail: &[u8]) -> anyhow::Result<Day> {
    let mut file = packed(heap, text)?;
    file.extend_from_slice(tail)?;
    Ok(Day {
        name: String::from_str(heap, name)?,
        file,
    })
}

fn random_day(heap: Global, seed: u64) -> anyhow::Result<Day> {
    Ok(Day {
        name: format!(in heap; "random-{seed:03}")?,
        file: random::day(heap, seed)?,
    })
}

// The store must print what the reference prints; a difference is shown, and is not in the expected output.
fn compare(rt: &HostRuntime, day: &Day, expected: &FileText) -> anyhow::Result<()> {
    let settled = report::by_store::settle(rt.alloc(), FULL, &day.file)?;
    if settled != *expected {
        println!(rt; "the store prints something else")?;
    }
    Ok(())
}

// Reports a day, or writes its file into a folder.
fn show(rt: &HostRuntime, folder: Option<&str>, day: &Day) -> anyhow::Result<()> {
    let heap = rt.alloc();
    let name = day.name.as_str();
    if let Some(folder) = folder {
        let path = format!(in heap; "{folder}/{name}.cmd")?;
        fs::write(rt, path.as_str(), &day.file)?;
        println!(rt; "{name}")?;
        return Ok(());
    }
    println!(rt; "== {name}")?;
    let report = match report::recompute(heap, &day.file) {
        Err(FileError::TooShort) => {
            println!(rt; "shorter than its terms")?;
            return Ok(());
        }
        report => report?,
    };
    rt.stdout().write_all(report.text.as_bytes())?;
    compare(rt, day, &report)?;
    if report.unread > 0 {
        let at = day.file.len().saturating_sub(report.unread);
        println!(rt; "stopped at byte {at}")?;
    }
    Ok(())
}

fn run(rt: &HostRuntime) -> anyhow::Result<()> {
    let heap = rt.alloc();
    let folder = env::args(rt)?.nth(1);
    let folder = folder.as_ref().map(|folder| folder.as_str());
    for (name, text, tail) in DAYS {
        show(rt, folder, &named_day(heap, name, text, tail)?)?;
    }
    // The number is the seed.
    for seed in 0..RANDOM_DAYS {
        show(rt, folder, &random_day(heap, seed)?)?;
    }
    Ok(())
}

fn main(rt: HostRuntime) -> anyhow::Result<()> {
    run(&rt)
}
