// A visit as a row: card, first time, last time, count, sum.
ghost use Rattle.rows.specs.Visits.{visit_cells, visit_laws, visit_limited, visit_limits, visit_made, visit_width};

use crate::limits::{COUNT_LIMIT, SUM_LIMIT, TIME_LIMIT};
use crate::row::Row;
use visit::Visit;

pub const VISIT_WIDTH: usize = 5;

// The one place where the cells of a visit are listed.
impl Row for Visit {
    const WIDTH: usize = VISIT_WIDTH;

    ghost WIDTH = { visit_width };

    ghost made = { visit_made };

    ghost cells = { visit_cells };

    ghost limits = { visit_limits };

    ghost laws = { visit_laws };

    ghost limited = { visit_limited };

    fn read(source: &[u64]) -> Visit {
        Visit {
            card: source[0],
            from: source[1],
            to: source[2],
            count: source[3],
            sum: source[4],
        }
    }

    fn write(self, target: &mut [u64]) {
        target.copy_from_slice(&[self.card, self.from, self.to, self.count, self.sum]);
    }

    fn limits() -> &'static [Option<u64>] {
        &[
            None,
            Some(TIME_LIMIT),
            Some(TIME_LIMIT),
            Some(COUNT_LIMIT),
            Some(SUM_LIMIT),
        ]
    }
}
