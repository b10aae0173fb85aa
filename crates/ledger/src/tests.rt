// Changes brought to small ledgers, so that a slip in a definition shows too. A day has 10 seconds.
use crate::posting::post;
use rows::out::ChangedRows;
use rows::search::Search;
use rows::table::Table;
use visit::Terms;

// The largest sum that a line may have.
const LARGEST: u64 = (1 << 52) - 1;

// What it is; the lines of a table and how many they are; the changes; the lines then and how many they are.
const CASES: [(&str, [u64; 12], usize, [u64; 12], [u64; 12], usize); 12] = [
    (
        "an empty ledger; a visit counts on the day on which it began",
        [9, 9, 9, 9, 9, 9, 9, 9, 9, 9, 9, 9],
        0,
        [0, 1, 1, 19, 20, 2, 5, 7, 7, 7, 7, 7],
        [1, 1, 1, 5, 9, 9, 9, 9, 9, 9, 9, 9],
        1,
    ),
    (
        "two visits of a day make one line",
        [9, 9, 9, 9, 9, 9, 9, 9, 9, 9, 9, 9],
        0,
        [0, 2, 1, 10, 11, 1, 5, 1, 19, 30, 1, 6],
        [1, 1, 2, 11, 9, 9, 9, 9, 9, 9, 9, 9],
        1,
    ),
    (
        "the only visit of the only line becomes longer",
        [1, 0, 1, 5, 9, 9, 9, 9, 9, 9, 9, 9],
        1,
        [1, 1, 1, 5, 8, 2, 5, 1, 5, 9, 3, 7],
        [1, 0, 1, 7, 9, 9, 9, 9, 9, 9, 9, 9],
        1,
    ),
    (
        "the sum stops at 0 before the new visit comes",
        [1, 0, 2, 3, 9, 9, 9, 9, 9, 9, 9, 9],
        1,
        [1, 1, 1, 0, 0, 1, 5, 1, 9, 9, 1, 7],
        [1, 0, 2, 7, 9, 9, 9, 9, 9, 9, 9, 9],
        1,
    ),
    (
        "a full table; a line goes with its last visit, whatever its sum",
        [1, 0, 1, 5, 1, 1, 1, 6, 2, 0, 1, 7],
        3,
        [1, 0, 1, 10, 12, 2, 4, 7, 7, 7, 7, 7],
        [1, 0, 1, 5, 2, 0, 1, 7, 0, 0, 0, 0],
        2,
    ),
    (
        "the last free row is taken",
        [1, 0, 1, 5, 2, 0, 1, 7, 9, 9, 9, 9],
        2,
        [0, 1, 1, 10, 19, 1, 6, 7, 7, 7, 7, 7],
        [1, 0, 1, 5, 1, 1, 1, 6, 2, 0, 1, 7],
        3,
    ),
    (
        "not in order; a line of the key behind a later one is not reached",
        [2, 0, 1, 5, 1, 0, 1, 6, 9, 9, 9, 9],
        2,
        [0, 1, 1, 0, 0, 1, 7, 7, 7, 7, 7, 7],
        [1, 0, 1, 7, 2, 0, 1, 5, 1, 0, 1, 6],
        3,
    ),
    (
        "two equal lines behind a later one; the first of them is taken from",
        [2, 0, 1, 5, 1, 0, 2, 6, 1, 0, 2, 6],
        3,
        [1, 0, 1, 0, 0, 1, 4, 7, 7, 7, 7, 7],
        [2, 0, 1, 5, 1, 0, 1, 2, 1, 0, 2, 6],
        3,
    ),
    (
        "two equal lines; the first of them is added to",
        [1, 0, 1, 6, 1, 0, 1, 6, 9, 9, 9, 9],
        2,
        [0, 1, 1, 0, 0, 1, 4, 7, 7, 7, 7, 7],
        [1, 0, 2, 10, 1, 0, 1, 6, 9, 9, 9, 9],
        2,
    ),
    (
        "a line without visits stays, and both its numbers stop at 0",
        [1, 0, 0, 3, 9, 9, 9, 9, 9, 9, 9, 9],
        1,
        [1, 0, 1, 0, 0, 1, 5, 7, 7, 7, 7, 7],
        [1, 0, 0, 0, 9, 9, 9, 9, 9, 9, 9, 9],
        1,
    ),
    (
        "a sum past its limit is stored as it is",
        [1, 0, 1, LARGEST, 9, 9, 9, 9, 9, 9, 9, 9],
        1,
        [0, 1, 1, 0, 0, 1, 1, 7, 7, 7, 7, 7],
        [1, 0, 2, LARGEST + 1, 9, 9, 9, 9, 9, 9, 9, 9],
        1,
    ),
    (
        "no line of the key: another day, and only the end of the visit on a line's day",
        [1, 0, 1, 5, 2, 1, 1, 6, 9, 9, 9, 9],
        2,
        [2, 0, 1, 10, 10, 1, 5, 2, 5, 15, 1, 6],
        [1, 0, 1, 5, 2, 1, 1, 6, 9, 9, 9, 9],
        2,
    ),
];

// Only what is within its room and its limits is brought to the ledger.
fn post_within(cells: &mut [u64], n: usize, out: &[u64]) -> Option<usize> {
    let terms = Terms {
        gap: 0,
        lateness: 0,
        day: 10,
    };
    if out.len() != 12
        || out[0] > 2
        || out[1] > 2 - out[0]
        || n > 3
        || cells.len() < (n + out[1] as usize) * 4
    {
        return None;
    }
    let mut table = Table::new(cells, n);
    let None = table.rows().first_over() else {
        return None;
    };
    let changed = ChangedRows::read(out);
    let None = changed.added.first_over() else {
        return None;
    };
    post(&mut table, changed, terms, Search::FromFront);
    Some(table.len)
}

#[test]
fn changes_brought_to_the_ledger(rt: HostRuntime) {
    for (what, lines, n, out, expected, count) in CASES {
        let mut table = lines;
        assert_eq!(rt; post_within(&mut table, n, &out), Some(count), "{}", what);
        assert_eq!(rt; table, expected, "{}", what);
    }
}
