// How many live visits and kept readings a store may hold. More than the layout has room for counts as what it has.
use crate::layout::{READINGS_ROOM, VISITS_ROOM};

#[derive(Clone, Copy)]
pub struct Capacity {
    pub visits: usize,
    pub readings: usize,
}

// All the room that the layout has.
pub const FULL: Capacity = Capacity {
    visits: VISITS_ROOM,
    readings: READINGS_ROOM,
};

// What `settle` keeps at most unless it is told otherwise.
pub const SMALL: Capacity = Capacity {
    visits: 64,
    readings: 256,
};
