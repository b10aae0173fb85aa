// Merging and expiry on small tables.
use crate::expiry::expire;
use crate::gathering::{gather, merge_apart};
use crate::merging::{merge, set_aside};
use crate::open::open_count;
use rows::table::{Rows, Table};
use std::array;
use visit::{Clock, Terms, Visit};

// What it is, the gap, the rows (card, first time, last time, count, sum), the visit, its place, the rows with those taken in behind the others, and the rows afterwards.
const MERGED: [(
    &str,
    u64,
    &[[u64; 5]],
    [u64; 5],
    usize,
    &[[u64; 5]],
    &[[u64; 5]],
); 12] = [
    (
        "the first visit",
        10,
        &[],
        [1, 5, 5, 1, 2],
        0,
        &[],
        &[[1, 5, 5, 1, 2]],
    ),
    (
        "the gap after a visit",
        10,
        &[[1, 5, 8, 2, 3]],
        [1, 18, 18, 1, 4],
        0,
        &[[1, 5, 8, 2, 3]],
        &[[1, 5, 18, 3, 7]],
    ),
    (
        "the gap and one after it",
        10,
        &[[1, 5, 8, 2, 3]],
        [1, 19, 19, 1, 4],
        1,
        &[[1, 5, 8, 2, 3]],
        &[[1, 5, 8, 2, 3], [1, 19, 19, 1, 4]],
    ),
    (
        "the gap before a visit",
        10,
        &[[1, 15, 18, 2, 3]],
        [1, 5, 5, 1, 4],
        0,
        &[[1, 15, 18, 2, 3]],
        &[[1, 5, 18, 3, 7]],
    ),
    (
        "the gap and one before it",
        10,
        &[[1, 15, 18, 2, 3]],
        [1, 4, 4, 1, 4],
        0,
        &[[1, 15, 18, 2, 3]],
        &[[1, 4, 4, 1, 4], [1, 15, 18, 2, 3]],
    ),
    (
        "gap 0",
        0,
        &[[1, 5, 5, 1, 1], [1, 6, 6, 1, 2]],
        [1, 6, 6, 1, 3],
        1,
        &[[1, 5, 5, 1, 1], [1, 6, 6, 1, 2]],
        &[[1, 5, 5, 1, 1], [1, 6, 6, 2, 5]],
    ),
    (
        "two near",
        6,
        &[[1, 0, 4, 2, 1], [1, 16, 20, 3, 2], [2, 10, 10, 1, 3]],
        [1, 10, 10, 1, 4],
        0,
        &[[2, 10, 10, 1, 3], [1, 0, 4, 2, 1], [1, 16, 20, 3, 2]],
        &[[1, 0, 20, 6, 7], [2, 10, 10, 1, 3]],
    ),
    (
        "full",
        10,
        &[[1, 5, 5, 1, 1], [2, 5, 5, 1, 2], [4, 5, 5, 1, 3]],
        [3, 5, 5, 1, 4],
        2,
        &[[1, 5, 5, 1, 1], [2, 5, 5, 1, 2], [4, 5, 5, 1, 3]],
        &[
            [1, 5, 5, 1, 1],
            [2, 5, 5, 1, 2],
            [3, 5, 5, 1, 4],
            [4, 5, 5, 1, 3],
        ],
    ),
    (
        "three near, the last to what it has become",
        10,
        &[[1, 20, 20, 1, 1], [1, 0, 0, 1, 2], [1, 30, 30, 1, 3]],
        [1, 10, 10, 1, 4],
        0,
        &[[1, 20, 20, 1, 1], [1, 0, 0, 1, 2], [1, 30, 30, 1, 3]],
        &[[1, 0, 30, 4, 10]],
    ),
    (
        "not sorted: it stops at the first that is neither",
        0,
        &[[1, 50, 50, 1, 1], [1, 5, 5, 1, 2]],
        [1, 5, 5, 1, 3],
        0,
        &[[1, 50, 50, 1, 1], [1, 5, 5, 1, 2]],
        &[[1, 5, 5, 1, 3], [1, 50, 50, 1, 1], [1, 5, 5, 1, 2]],
    ),
    (
        "two equal visits, one of them behind the place",
        0,
        &[[1, 5, 5, 1, 1], [1, 50, 50, 1, 2], [1, 5, 5, 1, 1]],
        [1, 5, 5, 1, 3],
        0,
        &[[1, 50, 50, 1, 2], [1, 5, 5, 1, 1], [1, 5, 5, 1, 1]],
        &[[1, 5, 5, 2, 4], [1, 50, 50, 1, 2], [1, 5, 5, 1, 1]],
    ),
    (
        "two equal visits side by side",
        0,
        &[[1, 5, 5, 1, 1], [1, 5, 5, 1, 1]],
        [1, 5, 5, 1, 3],
        0,
        &[[1, 5, 5, 1, 1], [1, 5, 5, 1, 1]],
        &[[1, 5, 5, 3, 5]],
    ),
];

// Live up to watermark 45, 46 and 90.
const ROWS: [[u64; 5]; 3] = [[1, 0, 5, 1, 1], [2, 5, 6, 2, 2], [3, 0, 50, 3, 3]];

// What it is, the watermark, how many are open at it, and which rows are left.
const EXPIRED: [(&str, u64, usize, &[[u64; 5]]); 6] = [
    ("the gap past the first", 15, 3, &ROWS),
    ("closed, and live", 16, 2, &ROWS),
    ("gap and lateness past the first", 45, 1, &ROWS),
    (
        "the first is expired",
        46,
        1,
        &[[2, 5, 6, 2, 2], [3, 0, 50, 3, 3]],
    ),
    ("one is open", 47, 1, &[[3, 0, 50, 3, 3]]),
    ("all are expired", 91, 0, &[]),
];

// What it is, the gap, the readings (card, time, amount) in the order in which they came, the place of the last one and how many it was near to, the most rows that there were, and the rows afterwards.
const JOINED: [(&str, u64, &[[u64; 3]], (usize, usize), usize, &[[u64; 5]]); 17] = [
    ("no reading", 10, &[], (0, 0), 0, &[]),
    (
        "the first reading",
        10,
        &[[1, 5, 1]],
        (0, 0),
        1,
        &[[1, 5, 5, 1, 1]],
    ),
    (
        "the gap after the one before",
        10,
        &[[1, 5, 1], [1, 15, 2]],
        (0, 1),
        1,
        &[[1, 5, 15, 2, 3]],
    ),
    (
        "the gap and one after the one before",
        10,
        &[[1, 5, 1], [1, 16, 2]],
        (1, 0),
        2,
        &[[1, 5, 5, 1, 1], [1, 16, 16, 1, 2]],
    ),
    (
        "the gap before the other",
        10,
        &[[1, 15, 1], [1, 5, 2]],
        (0, 1),
        1,
        &[[1, 5, 15, 2, 3]],
    ),
    (
        "the gap and one before the other",
        10,
        &[[1, 16, 1], [1, 5, 2]],
        (0, 0),
        2,
        &[[1, 5, 5, 1, 2], [1, 16, 16, 1, 1]],
    ),
    (
        "between two, the gap from both",
        10,
        &[[1, 0, 1], [1, 20, 2], [2, 10, 3], [1, 10, 4]],
        (0, 2),
        3,
        &[[1, 0, 20, 3, 7], [2, 10, 10, 1, 3]],
    ),
    (
        "between two, the gap from the first alone",
        10,
        &[[1, 0, 1], [1, 21, 2], [1, 10, 3]],
        (0, 1),
        2,
        &[[1, 0, 10, 2, 4], [1, 21, 21, 1, 2]],
    ),
    (
        "between two, the gap from the second alone",
        10,
        &[[1, 0, 1], [1, 21, 2], [1, 11, 3]],
        (1, 1),
        2,
        &[[1, 0, 0, 1, 1], [1, 11, 21, 2, 5]],
    ),
    (
        "between two, the gap and one from both",
        10,
        &[[1, 0, 1], [1, 22, 2], [1, 11, 3]],
        (1, 0),
        3,
        &[[1, 0, 0, 1, 1], [1, 11, 11, 1, 3], [1, 22, 22, 1, 2]],
    ),
    (
        "before three",
        10,
        &[[1, 20, 1], [1, 40, 2], [1, 60, 3], [1, 10, 4]],
        (0, 1),
        3,
        &[[1, 10, 20, 2, 5], [1, 40, 40, 1, 2], [1, 60, 60, 1, 3]],
    ),
    (
        "after three",
        10,
        &[[1, 20, 1], [1, 40, 2], [1, 60, 3], [1, 70, 4]],
        (2, 1),
        3,
        &[[1, 20, 20, 1, 1], [1, 40, 40, 1, 2], [1, 60, 70, 2, 7]],
    ),
    (
        "within a visit that began earlier, the second of three",
        10,
        &[[1, 0, 1], [1, 20, 2], [1, 30, 3], [1, 60, 4], [1, 25, 5]],
        (1, 1),
        3,
        &[[1, 0, 0, 1, 1], [1, 20, 30, 3, 10], [1, 60, 60, 1, 4]],
    ),
    (
        "the card between two others",
        10,
        &[[3, 5, 1], [1, 5, 2], [2, 5, 3], [2, 14, 4]],
        (1, 1),
        3,
        &[[1, 5, 5, 1, 2], [2, 5, 14, 2, 7], [3, 5, 5, 1, 1]],
    ),
    (
        "a new card between two others",
        10,
        &[[1, 5, 1], [3, 5, 2], [2, 5, 3]],
        (1, 0),
        3,
        &[[1, 5, 5, 1, 1], [2, 5, 5, 1, 3], [3, 5, 5, 1, 2]],
    ),
    (
        "gap 0, the first",
        0,
        &[[1, 5, 1], [1, 6, 2], [1, 5, 3]],
        (0, 1),
        2,
        &[[1, 5, 5, 2, 4], [1, 6, 6, 1, 2]],
    ),
    (
        "gap 0, the second",
        0,
        &[[1, 5, 1], [1, 6, 2], [1, 6, 3]],
        (1, 1),
        2,
        &[[1, 5, 5, 1, 1], [1, 6, 6, 2, 5]],
    ),
];

// A table of four rows and a cell behind them: the given rows, 0 up to row `most`, and 7 from there on.
fn cells_of(rows: &[[u64; 5]], most: usize) -> [u64; 21] {
    array::from_fn(|i| match rows.get(i / 5) {
        Some(row) => row[i % 5],
        None if i / 5 < most => 0,
        None => 7,
    })
}

// The place and the table after the walk, how many there are after the merging, and the table; None if a number is over its limit.
fn merged(
    rows: &[[u64; 5]],
    visit: [u64; 5],
    gap: u64,
) -> Option<(usize, [u64; 21], usize, [u64; 21])> {
    let n = rows.len();
    let mut cells = cells_of(rows, n);
    let [card, from, to, count, sum] = visit;
    if n > 3 || count > 10 || sum > 10 {
        return None;
    }
    let None = Rows::<Visit>::new(&cells, n).first_over() else {
        return None;
    };
    let visit = Visit {
        card,
        from,
        to,
        count,
        sum,
    };
    let terms = Terms {
        gap,
        lateness: 30,
        day: 100,
    };
    let mut walked = cells;
    let placed = set_aside(&mut Table::new(&mut walked, n), visit, terms);
    let mut table = Table::new(&mut cells, n);
    merge(&mut table, visit, terms);
    let many = table.len;
    Some((placed.at, walked, many, cells))
}

#[test]
fn merges(rt: HostRuntime) {
    for (what, gap, before, visit, at, walked, after) in MERGED {
        let n = before.len();
        let expected = (at, cells_of(walked, n), after.len(), cells_of(after, n));
        assert_eq!(rt; merged(before, visit, gap), Some(expected), "{}", what);
    }
}

// The place of the last reading and how many it was near to, how many visits the readings make, and the table; None if there is no room, or a number is over its limit.
fn joined(readings: &[[u64; 3]], gap: u64) -> Option<((usize, usize), usize, [u64; 21])> {
    let terms = Terms {
        gap,
        lateness: 30,
        day: 100,
    };
    let mut cells = [7; 21];
    let mut table = Table::new(&mut cells, 0);
    let mut last = (0, 0);
    for reading in readings {
        let [card, time, sum] = *reading;
        if table.len > 3 || sum > 10 {
            return None;
        }
        let None = table.rows().first_over() else {
            return None;
        };
        let visit = Visit {
            card,
            from: time,
            to: time,
            count: 1,
            sum,
        };
        let gathered = gather(table.rows(), visit, terms);
        last = (gathered.at, gathered.near.len());
        merge_apart(&mut table, &gathered, terms);
    }
    let many = table.len;
    Some((last, many, cells))
}

#[test]
fn joins(rt: HostRuntime) {
    for (what, gap, readings, last, most, after) in JOINED {
        let expected = (last, after.len(), cells_of(after, most));
        assert_eq!(rt; joined(readings, gap), Some(expected), "{}", what);
    }
}

#[test]
fn expires(rt: HostRuntime) {
    let terms = Terms {
        gap: 10,
        lateness: 30,
        day: 100,
    };
    for (what, watermark, open, after) in EXPIRED {
        let mut cells = cells_of(&ROWS, 3);
        let clock = Clock { terms, watermark };
        assert_eq!(rt; open_count(Rows::new(&cells, 3), clock), open, "{}", what);
        let mut table = Table::new(&mut cells, 3);
        expire(&mut table, clock);
        assert_eq!(rt; table.len, after.len(), "{}", what);
        assert_eq!(rt; cells, cells_of(after, 3), "{}", what);
    }
}
