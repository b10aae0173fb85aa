// Rows of numbers at and around every boundary, put through `open` and `apply`; what comes out is printed.
// `boundaries FILE...` reads its cases from files: data/ has them, and peer/rows.py says how they are written.
// The expected output is not ours: `peer/rows.sh` has an independent program work it out from the same files.
#![tactic(auto)]

mod numbers;
mod runner;
mod setup;
mod show;

use runner::Runner;
use std::alloc::Global;
use std::io::Write;
use std::{env, fs};

// What is printed for one file of cases.
fn report(heap: Global, cases: &str) -> anyhow::Result<String> {
    let mut runner = Runner::new(heap)?;
    for line in cases.lines() {
        runner.line(heap, line)?;
    }
    Ok(runner.text)
}

fn run(rt: &HostRuntime) -> anyhow::Result<()> {
    for name in env::args(rt)?.skip(1) {
        let cases = fs::read_to_string(rt, name.as_str())?;
        let text = report(rt.alloc(), cases.as_str())?;
        rt.stdout().write_all(text.as_bytes())?;
    }
    Ok(())
}

fn main(rt: HostRuntime) -> anyhow::Result<()> {
    run(&rt)
}
