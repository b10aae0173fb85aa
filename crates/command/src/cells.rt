// A command as the row of numbers in which it is handed to a store: its kind, a number there since callers have rows of numbers, and behind it its own.
ghost use Rattle.command.specs.Cells.{command_cells, read_command};
ghost use Rattle.std.specs.Prelude.{◌≡◌};

use crate::{Command, Refusal};
use visit::Reading;
use visit::cells::READING_WIDTH;

// How many numbers the row has.
pub const COMMAND_WIDTH: usize = 5;

impl From<Command> for [u64; COMMAND_WIDTH] {
    ghost from_gives = { λ c r. r ≡ command_cells c };

    fn from(command: Command) -> [u64; COMMAND_WIDTH] {
        match command {
            Command::Reading(reading) => {
                let [card, time, serial, amount]: [u64; READING_WIDTH] = reading.into();
                [0, card, time, serial, amount]
            }
            Command::Watermark(time) => [1, time, 0, 0, 0],
        }
    }
}

// Of a watermark's row only the first two numbers are looked at.
impl TryFrom<&[u64]> for Command {
    type Error = Refusal;

    ghost try_from_gives = { λ row r. r ≡ read_command row.now };

    fn try_from(row: &[u64]) -> Result<Command, Refusal> {
        let [kind, first, second, third, fourth, ..] = row else {
            return Err(Refusal::BadCommand(row.len() as u64));
        };
        let command = match *kind {
            0 => Command::Reading(Reading::from([*first, *second, *third, *fourth])),
            1 => Command::Watermark(*first),
            _ => return Err(Refusal::BadCommand(0)),
        };
        command.check()?;
        Ok(command)
    }
}
