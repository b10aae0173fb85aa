// How commands and refusals are written.
ghost use Rattle.command.specs.Text.{command_line, refusal_text};
ghost use Rattle.std.specs.Prelude.{Some};

use crate::{Command, Refusal};
use std::fmt;

impl fmt::Display for Command {
    ghost output = { λ c. Some (command_line c) };

    fn fmt<W: fmt::Write>(&self, f: &mut fmt::Formatter<W>) -> fmt::Result {
        match self {
            Command::Reading(reading) => write!(f, "reading {reading}"),
            Command::Watermark(time) => write!(f, "watermark {time}"),
        }
    }
}

impl fmt::Display for Refusal {
    ghost output = { λ r. Some (refusal_text r) };

    fn fmt<W: fmt::Write>(&self, f: &mut fmt::Formatter<W>) -> fmt::Result {
        write!(f, "refused {} at {}", self.number(), self.place())
    }
}
