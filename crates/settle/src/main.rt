// Does the commands of a file by a store in fixed memory, and prints what changes.
#![tactic(auto)]

use cli::Tool;
use cli::options::Options;
use cli::source::Source;
use std::process::ExitCode;
use store::capacity::{FULL, SMALL};

const HELP: &str =
    "settle [--full] [--strict] [FILE]\n\nReads a command file, FILE or standard input, and prints for each command the visits retracted (-) and\nadded (+) or why it was refused, and at the end the ledger. Keeps at most 64 live visits and 256 readings.\n\n  --full     keep up to 1,024 live visits and 4,096 readings\n  --strict   end with status 1 if the file ends within a command or has one of unknown kind\n  --help     print this and end\n  --version  print the version and end\n";

struct Settle;

impl Tool for Settle {
    fn name(&self) -> &'static str {
        "settle"
    }

    fn help(&self) -> &'static str {
        HELP
    }

    fn has_full(&self) -> bool {
        true
    }

    // As in `recompute`: two programs are asked for, and the store takes the reference's place in this one.
    fn process(
        &self,
        rt: &HostRuntime,
        options: &Options,
        source: &mut Source,
    ) -> anyhow::Result<Option<u64>> {
        let capacity = if options.full { FULL } else { SMALL };
        let mut out = rt.stdout();
        Ok(report::by_store::settle_stream(rt.alloc(), capacity, source, &mut out)?)
    }
}

fn main(rt: HostRuntime) -> ExitCode {
    cli::run(&rt, &Settle)
}
