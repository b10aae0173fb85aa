// A reading as a row of four numbers: card, time, serial, amount.
ghost use Rattle.std.specs.Prelude.{◌≡◌};
ghost use Rattle.visit.specs.Cells.{reading_cells, reading_made};

use crate::Reading;

pub const READING_WIDTH: usize = 4;

impl From<[u64; READING_WIDTH]> for Reading {
    ghost from_gives = { λ cells e. e ≡ reading_made cells };

    fn from([card, time, serial, amount]: [u64; READING_WIDTH]) -> Reading {
        Reading {
            card,
            time,
            serial,
            amount,
        }
    }
}

impl From<Reading> for [u64; READING_WIDTH] {
    ghost from_gives = { λ e cells. cells ≡ reading_cells e };

    fn from(e: Reading) -> [u64; READING_WIDTH] {
        [e.card, e.time, e.serial, e.amount]
    }
}
