// A store as it is read: its clock and its tables.
ghost use Rattle.std.specs.Prelude.{◌≤◌};
ghost use Rattle.store.specs.Layout.{lines_room, readings_room, visits_room};

use crate::header::Header;
use crate::layout::{LINES_AT, READINGS_AT, STORE_SIZE, VISITS_AT};
use rows::row::Row;
use rows::table::Rows;
use visit::{Clock, Line, Reading, Visit};

#[derive(Drop)]
pub struct View<'a> {
    pub clock: Clock,
    pub visits: Rows<'a, Visit>,
    pub readings: Rows<'a, Reading>,
    pub lines: Rows<'a, Line>,
    ghost few_visits: { visits.len ≤ visits_room },
    ghost few_readings: { readings.len ≤ readings_room },
    ghost few_lines: { lines.len ≤ lines_room },
}

impl<'a> View<'a> {
    ghost use Rattle.std.specs.Prelude.{◌≡◌};
    ghost use Rattle.store.specs.Views.{Shows, Sized, header_seen};

    pub fn new(store: &'a [u64]) -> View<'a>
        requires { Sized store.now }
        ensures { Shows result store.now }
    {
        let header = Header::read(store);
        View {
            clock: header.clock,
            visits: Rows::new(&store[VISITS_AT..READINGS_AT], header.visits),
            readings: Rows::new(&store[READINGS_AT..LINES_AT], header.readings),
            lines: Rows::new(&store[LINES_AT..STORE_SIZE], header.lines),
        }
    }

    pub fn header(&self) -> Header
        ensures { result ≡ header_seen self.now }
    {
        Header {
            clock: self.clock,
            visits: self.visits.len,
            readings: self.readings.len,
            lines: self.lines.len,
        }
    }
}
