// The options of a run.
ghost use Rattle.cli.specs.Noted.{Notes, checked, no_options, usage_text};
ghost use Rattle.std.specs.Prelude.{◌≡◌, Some};

use crate::flags::Flag;
use std::error::Error;
use std::fmt;

#[derive(Debug, Default, Drop)]
pub struct Options {
    pub help: bool,
    pub version: bool,
    pub strict: bool,
    pub unpack: bool,
    pub full: bool,
    pub file: Option<String>,
}

// Why a command line is refused.
#[derive(Clone, Copy, PartialEq, Eq, Debug)]
pub enum Usage {
    UnknownOption,
    TwoFiles,
}

impl fmt::Display for Usage {
    ghost output = { λ u. Some (usage_text u) };

    fn fmt<W: fmt::Write>(&self, f: &mut fmt::Formatter<W>) -> fmt::Result {
        f.write_str(match self {
            Usage::UnknownOption => "unknown option; --help says which there are",
            Usage::TwoFiles => "more than one file",
        })
    }
}

impl Error for Usage {}

impl Options {
    // A derive has no place for a clause.
    pub fn none() -> Options
        ensures { result ≡ no_options }
    {
        Options::default()
    }

    // The options with one word more.
    pub fn noted(self, word: String) -> Result<Options, Usage>
        ensures { Notes self word result }
    {
        match Flag::try_from(word.as_str())? {
            Flag::Help => Ok(Options { help: true, ..self }),
            Flag::Version => Ok(Options {
                version: true,
                ..self
            }),
            Flag::Strict => Ok(Options {
                strict: true,
                ..self
            }),
            Flag::Unpack => Ok(Options {
                unpack: true,
                ..self
            }),
            Flag::Full => Ok(Options { full: true, ..self }),
            Flag::Unknown => Err(Usage::UnknownOption),
            Flag::Name if self.file.is_some() => Err(Usage::TwoFiles),
            Flag::Name => Ok(Options {
                file: Some(word),
                ..self
            }),
        }
    }

    // An option that the program does not have is as unknown as any.
    pub fn checked(self, has_full: bool) -> Result<Options, Usage>
        ensures { result ≡ checked has_full self }
    {
        if self.full && !has_full {
            Err(Usage::UnknownOption)
        } else {
            Ok(self)
        }
    }
}
