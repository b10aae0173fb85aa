// Words of the command line.
ghost use Rattle.cli.specs.Flags.{Reads};

use crate::flag;
use crate::options::Usage;

#[derive(Clone, Copy, PartialEq, Eq, Debug)]
pub enum Flag {
    Help,
    Version,
    Strict,
    Unpack,
    Full,
    Unknown,
    Name,
}

impl TryFrom<&str> for Flag {
    type Error = Usage;

    ghost try_from_gives = { λ word r. Reads word.now r };

    fn try_from(word: &str) -> Result<Flag, Usage> {
        match flag(word) {
            Flag::Unknown => Err(Usage::UnknownOption),
            known => Ok(known),
        }
    }
}
