// The header of a store: its terms, its watermark, and how many rows each table has.
ghost use Rattle.store.specs.Header.{header_cells, header_laws, header_limited, header_limits, header_made};
ghost use Rattle.store.specs.Layout.{header_width};

use crate::layout::{HEADER_WIDTH, LINES_ROOM, READINGS_ROOM, VISITS_ROOM};
use rows::row::Row;
use visit::{Clock, Terms};

#[derive(Clone, Copy)]
pub struct Header {
    pub clock: Clock,
    pub visits: usize,
    pub readings: usize,
    pub lines: usize,
}

// The one place where the cells of a header are listed.
impl Row for Header {
    const WIDTH: usize = HEADER_WIDTH;

    ghost WIDTH = { header_width };

    ghost made = { header_made };

    ghost cells = { header_cells };

    ghost limits = { header_limits };

    ghost laws = { header_laws };

    ghost limited = { header_limited };

    fn read(source: &[u64]) -> Header {
        Header {
            clock: Clock {
                terms: Terms {
                    gap: source[0],
                    lateness: source[1],
                    day: source[2],
                },
                watermark: source[3],
            },
            visits: source[4] as usize,
            readings: source[5] as usize,
            lines: source[6] as usize,
        }
    }

    fn write(self, target: &mut [u64]) {
        target.copy_from_slice(&[
            self.clock.terms.gap,
            self.clock.terms.lateness,
            self.clock.terms.day,
            self.clock.watermark,
            self.visits as u64,
            self.readings as u64,
            self.lines as u64,
        ]);
    }

    // A count may be as large as its room.
    fn limits() -> &'static [Option<u64>] {
        &[
            None,
            None,
            None,
            None,
            Some(VISITS_ROOM as u64 + 1),
            Some(READINGS_ROOM as u64 + 1),
            Some(LINES_ROOM as u64 + 1),
        ]
    }
}
