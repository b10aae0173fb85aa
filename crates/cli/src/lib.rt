// What the programs share: options, input, the text out, one line for an error.
#![tactic(auto)]

pub mod flags;
pub mod options;
pub mod source;

ghost use Rattle.cli.specs.Flags.{Means};
ghost use Rattle.std.specs.Prelude.{◌≡◌, ◌==◌, slice_index};

use anyhow::anyhow;
use flags::Flag;
use options::Options;
use source::Source;
use std::io::Write;
use std::process::ExitCode;
use std::{env, fmt};

const VERSION: &str = "0.1.0";

const STOPPED: &str = "the command ends early or is of unknown kind";

// What a word is. An option that is none of ours is unknown, so this cannot fail.
pub fn flag(word: &str) -> Flag
    ensures { Means word.now result }
{
    match word {
        "--help" => Flag::Help,
        "--version" => Flag::Version,
        "--strict" => Flag::Strict,
        "--unpack" => Flag::Unpack,
        "--full" => Flag::Full,
        _ if is_option(word.as_bytes()) => Flag::Unknown,
        _ => Flag::Name,
    }
}

fn is_option(word: &[u8]) -> bool
    ensures { result ≡ (slice_index word.now 0 == 45) }
{
    word.starts_with(b"-")
}

// A program: its name, what --help prints, whether it has --full, and what it does with what it reads, once its options are known.
pub trait Tool {
    fn name(&self) -> &'static str;

    fn help(&self) -> &'static str;

    // Most programs have no --full.
    fn has_full(&self) -> bool {
        false
    }

    // Writes to standard output, and says at which byte reading stopped, if it did before the end.
    fn process(
        &self,
        rt: &HostRuntime,
        options: &Options,
        source: &mut Source,
    ) -> anyhow::Result<Option<u64>>;
}

// Why a run fails. The path of a file that cannot be read stands beside the error, which keeps 120 bytes of text at most.
#[derive(Drop)]
struct Failure {
    path: Option<String>,
    error: anyhow::Error,
}

impl fmt::Display for Failure {
    fn fmt<W: fmt::Write>(&self, f: &mut fmt::Formatter<W>) -> fmt::Result {
        if let Some(path) = &self.path {
            write!(f, "{path}: ")?;
        }
        write!(f, "{}", self.error)
    }
}

impl<E: Into<anyhow::Error>> From<E> for Failure {
    fn from(error: E) -> Failure {
        Failure {
            path: None,
            error: error.into(),
        }
    }
}

// Runs a program, and says in one line on standard error what went wrong.
pub fn run<T: Tool>(rt: &HostRuntime, tool: &T) -> ExitCode {
    let Err(e) = attempt(rt, tool) else {
        return ExitCode::SUCCESS;
    };
    let name = tool.name();
    let _ = eprintln!(rt; "{name}: {e}");
    ExitCode::FAILURE
}

fn attempt<T: Tool>(rt: &HostRuntime, tool: &T) -> Result<(), Failure> {
    let options = gather(rt, tool)?;
    let name = tool.name();
    if options.help {
        output(rt, tool.help().as_bytes())?;
        return Ok(());
    }
    if options.version {
        println!(rt; "{name} {VERSION}")?;
        return Ok(());
    }
    // `map_err` would move `options.file` into its closure, and the options are used below.
    let mut source = match Source::open(rt, &options.file) {
        Ok(source) => source,
        Err(error) => return Err(Failure {
            path: options.file,
            error: error.into(),
        }),
    };
    let stopped = match tool.process(rt, &options, &mut source) {
        Ok(stopped) => stopped,
        Err(error) if source.failed() => return Err(Failure {
            path: options.file,
            error,
        }),
        Err(error) => return Err(error.into()),
    };
    let Some(at) = stopped else {
        return Ok(());
    };
    if options.strict {
        return Err(anyhow!("stopped at byte {at}: {STOPPED}").into());
    }
    eprintln!(rt; "{name}: stopped at byte {at}: {STOPPED}")?;
    Ok(())
}

// The options of this run.
fn gather<T: Tool>(rt: &HostRuntime, tool: &T) -> anyhow::Result<Options> {
    let mut options = Options::none();
    for word in env::args(rt)?.skip(1) {
        options = options.noted(word)?.checked(tool.has_full())?;
    }
    Ok(options)
}

// All bytes to standard output, at once.
pub fn output(rt: &HostRuntime, bytes: &[u8]) -> anyhow::Result<()> {
    rt.stdout().write_all(bytes)?;
    Ok(())
}
