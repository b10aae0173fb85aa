// A day as text to a command file, and back.
#![tactic(auto)]

use cli::Tool;
use cli::options::Options;
use cli::source::Source;
use std::process::ExitCode;

const HELP: &str =
    "pack [FILE]\npack --unpack [--strict] [FILE]\n\nWrites the command file of a day in text, FILE or standard input; nothing is written if a line is bad.\nWith --unpack it writes the text of a command file.\n\n  --unpack   the other way\n  --strict   end with status 1 if the command file ends within a command or has one of unknown kind\n  --help     print this and end\n  --version  print the version and end\n";

struct Packer;

impl Tool for Packer {
    fn name(&self) -> &'static str {
        "pack"
    }

    fn help(&self) -> &'static str {
        HELP
    }

    fn process(
        &self,
        rt: &HostRuntime,
        options: &Options,
        source: &mut Source,
    ) -> anyhow::Result<Option<u64>> {
        let input = source.whole(rt.alloc())?;
        if options.unpack {
            unpack_file(rt, &input)
        } else {
            pack_text(rt, &input)
        }
    }
}

fn pack_text(rt: &HostRuntime, text: &[u8]) -> anyhow::Result<Option<u64>> {
    let file = convert::pack(rt.alloc(), text)?;
    cli::output(rt, &file)?;
    Ok(None)
}

fn unpack_file(rt: &HostRuntime, file: &[u8]) -> anyhow::Result<Option<u64>> {
    let day = convert::unpack(rt.alloc(), file)?;
    cli::output(rt, day.text.as_bytes())?;
    let at = file.len().saturating_sub(day.unread);
    Ok((day.unread > 0).then_some(at as u64))
}

fn main(rt: HostRuntime) -> ExitCode {
    cli::run(&rt, &Packer)
}
