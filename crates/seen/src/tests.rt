// Readings looked up, put in and dropped in small tables. A reading is card, time, serial, amount; one at 5 is kept at 35 and gone at 36.
use crate::{contains, expire, insert};
use rows::search::Search;
use rows::table::Table;
use std::process::Abort;
use visit::{Clock, Terms};

const TERMS: Terms = Terms {
    gap: 10,
    lateness: 30,
    day: 100,
};

// A reading looked for, and whether it is there; one put in; the watermark at which readings are dropped.
// An enum, so that one table has each kind of case.
#[derive(Clone, Copy)]
enum Case {
    Contains([u64; 4], bool),
    Insert([u64; 4]),
    Expire(u64),
}

// What it is; the readings of a table and how many they are; what is done; the readings then and how many they are.
const CASES: [(&str, [u64; 12], usize, Case, [u64; 12], usize); 15] = [
    (
        "what stands in an empty table is not there",
        [1, 5, 0, 2, 9, 9, 9, 9, 9, 9, 9, 9],
        0,
        Case::Contains([1, 5, 0, 2], false),
        [1, 5, 0, 2, 9, 9, 9, 9, 9, 9, 9, 9],
        0,
    ),
    (
        "the only one, with another amount",
        [1, 5, 0, 2, 9, 9, 9, 9, 9, 9, 9, 9],
        1,
        Case::Contains([1, 5, 0, 7], true),
        [1, 5, 0, 2, 9, 9, 9, 9, 9, 9, 9, 9],
        1,
    ),
    (
        "another serial, at the time of two that are equal",
        [1, 5, 0, 2, 1, 5, 0, 2, 9, 9, 9, 9],
        2,
        Case::Contains([1, 5, 1, 2], false),
        [1, 5, 0, 2, 1, 5, 0, 2, 9, 9, 9, 9],
        2,
    ),
    (
        "the last of a full table",
        [1, 5, 0, 2, 1, 5, 1, 2, 2, 5, 0, 3],
        3,
        Case::Contains([2, 5, 0, 3], true),
        [1, 5, 0, 2, 1, 5, 1, 2, 2, 5, 0, 3],
        3,
    ),
    (
        "not in order; one behind a later one is there",
        [2, 5, 0, 3, 1, 5, 0, 2, 9, 9, 9, 9],
        2,
        Case::Contains([1, 5, 0, 2], true),
        [2, 5, 0, 3, 1, 5, 0, 2, 9, 9, 9, 9],
        2,
    ),
    (
        "the first one, put into an empty table",
        [9, 9, 9, 9, 9, 9, 9, 9, 9, 9, 9, 9],
        0,
        Case::Insert([1, 5, 0, 2]),
        [1, 5, 0, 2, 9, 9, 9, 9, 9, 9, 9, 9],
        1,
    ),
    (
        "before the only one, by its serial",
        [1, 5, 1, 2, 9, 9, 9, 9, 9, 9, 9, 9],
        1,
        Case::Insert([1, 5, 0, 7]),
        [1, 5, 0, 7, 1, 5, 1, 2, 9, 9, 9, 9],
        2,
    ),
    (
        "into the last free row, behind another card's later time",
        [1, 8, 0, 2, 3, 1, 0, 4, 9, 9, 9, 9],
        2,
        Case::Insert([2, 5, 0, 3]),
        [1, 8, 0, 2, 2, 5, 0, 3, 3, 1, 0, 4],
        3,
    ),
    (
        "not in order; a later one in front is not passed",
        [2, 5, 0, 3, 1, 5, 0, 2, 9, 9, 9, 9],
        2,
        Case::Insert([1, 8, 0, 4]),
        [1, 8, 0, 4, 2, 5, 0, 3, 1, 5, 0, 2],
        3,
    ),
    (
        "two equal ones; a third stands in front of them",
        [1, 5, 0, 2, 1, 5, 0, 2, 9, 9, 9, 9],
        2,
        Case::Insert([1, 5, 0, 7]),
        [1, 5, 0, 7, 1, 5, 0, 2, 1, 5, 0, 2],
        3,
    ),
    (
        "nothing is dropped from an empty table, nor cleared",
        [1, 5, 0, 2, 9, 9, 9, 9, 9, 9, 9, 9],
        0,
        Case::Expire(99),
        [1, 5, 0, 2, 9, 9, 9, 9, 9, 9, 9, 9],
        0,
    ),
    (
        "the only one is kept as long as the lateness",
        [1, 5, 0, 2, 9, 9, 9, 9, 9, 9, 9, 9],
        1,
        Case::Expire(35),
        [1, 5, 0, 2, 9, 9, 9, 9, 9, 9, 9, 9],
        1,
    ),
    (
        "and gone one later",
        [1, 5, 0, 2, 9, 9, 9, 9, 9, 9, 9, 9],
        1,
        Case::Expire(36),
        [0, 0, 0, 0, 9, 9, 9, 9, 9, 9, 9, 9],
        0,
    ),
    (
        "a full table, not in order; those that are kept move up as they stood",
        [2, 9, 0, 3, 1, 5, 0, 2, 1, 6, 0, 4],
        3,
        Case::Expire(36),
        [2, 9, 0, 3, 1, 6, 0, 4, 0, 0, 0, 0],
        2,
    ),
    (
        "two equal ones are both gone",
        [1, 5, 0, 2, 1, 5, 0, 2, 1, 6, 0, 4],
        3,
        Case::Expire(36),
        [1, 6, 0, 4, 0, 0, 0, 0, 0, 0, 0, 0],
        1,
    ),
];

// How many readings there are then.
fn done(rt: &impl Abort, cells: &mut [u64; 12], n: usize, case: Case) -> usize {
    assert!(rt; n <= 3);
    let mut table = Table::new(cells, n);
    match case {
        Case::Contains(reading, there) => {
            assert_eq!(rt;
                contains(table.rows(), reading.into(), TERMS, Search::FromFront),
                there
            );
        }
        Case::Insert(reading) => {
            assert!(rt; n < 3);
            insert(&mut table, reading.into(), TERMS, Search::FromFront);
        }
        Case::Expire(watermark) => expire(
            &mut table,
            Clock {
                terms: TERMS,
                watermark,
            },
        ),
    }
    table.len
}

#[test]
fn readings_in_a_small_table(rt: HostRuntime) {
    for (what, readings, n, case, expected, count) in CASES {
        let mut cells = readings;
        assert_eq!(rt; done(&rt, &mut cells, n, case), count, "{}", what);
        assert_eq!(rt; cells, expected, "{}", what);
    }
}
