// Does the commands of a file by the reference, which keeps every reading and works everything out anew.
#![tactic(auto)]

use cli::Tool;
use cli::options::Options;
use cli::source::Source;
use std::process::ExitCode;

const HELP: &str =
    "recompute [--strict] [FILE]\n\nReads a command file, FILE or standard input, keeps every reading and works everything out anew at each\ncommand. Prints the visits retracted and added, the refusals, and at the end the ledger.\n\n  --strict   end with status 1 if the file ends within a command or has one of unknown kind\n  --help     print this and end\n  --version  print the version and end\n";

struct Recompute;

impl Tool for Recompute {
    fn name(&self) -> &'static str {
        "recompute"
    }

    fn help(&self) -> &'static str {
        HELP
    }

    // As in `settle`: two programs are asked for, and this one stays with the reference.
    fn process(
        &self,
        rt: &HostRuntime,
        _options: &Options,
        source: &mut Source,
    ) -> anyhow::Result<Option<u64>> {
        let mut out = rt.stdout();
        Ok(report::recompute_stream(rt.alloc(), source, &mut out)?)
    }
}

fn main(rt: HostRuntime) -> ExitCode {
    cli::run(&rt, &Recompute)
}
