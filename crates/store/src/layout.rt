// Where things stand in the store's row. Widths come from the rows, so a change of one is made there.
use changes::out::{LIVE_MOST, OUT_WIDTH};
use rows::lines::LINE_WIDTH;
use rows::readings::READING_WIDTH;
use rows::visits::VISIT_WIDTH;

pub const HEADER_WIDTH: usize = 7;

pub const VISITS_ROOM: usize = LIVE_MOST;

pub const READINGS_ROOM: usize = 4096;

pub const LINES_ROOM: usize = 4096;

pub const VISITS_AT: usize = HEADER_WIDTH;

pub const READINGS_AT: usize = VISITS_AT + VISITS_ROOM * VISIT_WIDTH;

pub const LINES_AT: usize = READINGS_AT + READINGS_ROOM * READING_WIDTH;

pub const STORE_SIZE: usize = LINES_AT + LINES_ROOM * LINE_WIDTH;

// Two counts, and room for what any command can change.
pub const OUT_SIZE: usize = OUT_WIDTH;
