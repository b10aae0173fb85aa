// A reading as a row: card, time, serial, amount.
ghost use Rattle.rows.specs.Readings.{reading_laws, reading_limited, reading_limits};
ghost use Rattle.visit.specs.Cells.{reading_cells, reading_made, reading_width};

use crate::limits::TIME_LIMIT;
use crate::row::Row;
use visit::Reading;
pub use visit::cells::READING_WIDTH;

impl Row for Reading {
    const WIDTH: usize = READING_WIDTH;

    ghost WIDTH = { reading_width };

    ghost made = { reading_made };

    ghost cells = { reading_cells };

    ghost limits = { reading_limits };

    ghost laws = { reading_laws };

    ghost limited = { reading_limited };

    fn read(source: &[u64]) -> Reading {
        Reading::from([source[0], source[1], source[2], source[3]])
    }

    fn write(self, target: &mut [u64]) {
        target.copy_from_slice(&<[u64; READING_WIDTH]>::from(self));
    }

    fn limits() -> &'static [Option<u64>] {
        &[None, Some(TIME_LIMIT), None, None]
    }
}
