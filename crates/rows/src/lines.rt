// A line of the ledger as a row: card, day, visits, sum.
ghost use Rattle.rows.specs.Lines.{line_cells, line_laws, line_limited, line_limits, line_made, line_width};

use crate::limits::{COUNT_LIMIT, SUM_LIMIT};
use crate::row::Row;
use visit::Line;

pub const LINE_WIDTH: usize = 4;

// The one place where the cells of a line are listed.
impl Row for Line {
    const WIDTH: usize = LINE_WIDTH;

    ghost WIDTH = { line_width };

    ghost made = { line_made };

    ghost cells = { line_cells };

    ghost limits = { line_limits };

    ghost laws = { line_laws };

    ghost limited = { line_limited };

    fn read(source: &[u64]) -> Line {
        Line {
            card: source[0],
            day: source[1],
            visits: source[2],
            sum: source[3],
        }
    }

    fn write(self, target: &mut [u64]) {
        target.copy_from_slice(&[self.card, self.day, self.visits, self.sum]);
    }

    fn limits() -> &'static [Option<u64>] {
        &[None, None, Some(COUNT_LIMIT), Some(SUM_LIMIT)]
    }
}
