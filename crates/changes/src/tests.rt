// Changes on examples worked out by hand: gap 10, so a visit that ends at 12 is closed at 23 and not at 22.
use crate::apart::by_reading_apart;
use crate::out::width;
use crate::reading::by_reading;
use crate::watermark::by_watermark;
use live::merging::Placed;
use rows::table::Rows;
use std::process::Abort;
use visit::{Clock, Terms, Visit};

const TERMS: Terms = Terms {
    gap: 10,
    lateness: 30,
    day: 100,
};

fn clock_at(watermark: u64) -> Clock {
    Clock {
        terms: TERMS,
        watermark,
    }
}

// Card, first and last time, count, sum.
fn visit(card: u64, from: u64, to: u64, count: u64, sum: u64) -> Visit {
    Visit {
        card,
        from,
        to,
        count,
        sum,
    }
}

// The watermarks before and after; or how many rows are left, what became of the others, and the watermark.
// An enum, so that one table has both kinds of case.
#[derive(Clone, Copy)]
enum By {
    Watermark(u64, u64),
    Reading(usize, (u64, u64, u64, u64, u64), u64),
}

// Room for the counts and four visits.
const OUT: usize = 22;

const OLD: [u64; OUT] = [77; OUT];

// The largest sum that a visit may have.
const LARGEST: u64 = (1 << 52) - 1;

const CASES: [(&str, &[u64], By, &[u64]); 19] = [
    (
        "a watermark over no visits",
        &[],
        By::Watermark(0, 99),
        &[0, 0],
    ),
    (
        "it closes a visit at its time",
        &[1, 5, 12, 2, 5],
        By::Watermark(22, 23),
        &[0, 1, 1, 5, 12, 2, 5],
    ),
    (
        "not one before",
        &[1, 5, 12, 2, 5],
        By::Watermark(0, 22),
        &[0, 0],
    ),
    (
        "not again",
        &[1, 5, 12, 2, 5],
        By::Watermark(23, 99),
        &[0, 0],
    ),
    (
        "not if it stays",
        &[1, 5, 12, 2, 5],
        By::Watermark(23, 23),
        &[0, 0],
    ),
    (
        "the largest sum is written as it is",
        &[1, 5, 12, 2, LARGEST],
        By::Watermark(22, 23),
        &[0, 1, 1, 5, 12, 2, LARGEST],
    ),
    (
        "not in order, two equal, each is added",
        &[2, 7, 9, 1, 1, 1, 5, 12, 2, 5, 2, 7, 9, 1, 1],
        By::Watermark(19, 23),
        &[0, 3, 2, 7, 9, 1, 1, 1, 5, 12, 2, 5, 2, 7, 9, 1, 1],
    ),
    (
        "the open one between two is passed",
        &[1, 5, 12, 2, 5, 1, 13, 13, 1, 4, 2, 7, 9, 1, 1],
        By::Watermark(19, 23),
        &[0, 2, 1, 5, 12, 2, 5, 2, 7, 9, 1, 1],
    ),
    (
        "a reading alone, closed at its time",
        &[],
        By::Reading(0, (1, 5, 5, 1, 2), 16),
        &[0, 1, 1, 5, 5, 1, 2],
    ),
    (
        "not one before",
        &[],
        By::Reading(0, (1, 5, 5, 1, 2), 15),
        &[0, 0],
    ),
    (
        "a closed visit gets longer",
        &[1, 5, 12, 2, 5],
        By::Reading(0, (1, 5, 20, 3, 6), 40),
        &[1, 1, 1, 5, 12, 2, 5, 1, 5, 20, 3, 6],
    ),
    (
        "an open visit gets longer",
        &[1, 5, 12, 2, 5],
        By::Reading(0, (1, 5, 20, 3, 6), 22),
        &[0, 0],
    ),
    (
        "a closed and an open visit become an open one",
        &[1, 5, 20, 3, 6, 1, 33, 33, 1, 4],
        By::Reading(0, (1, 5, 33, 5, 15), 40),
        &[1, 0, 1, 5, 20, 3, 6],
    ),
    (
        "three near, all closed, so that `out` is full",
        &[1, 5, 12, 2, 5, 1, 6, 14, 1, 7, 1, 20, 22, 1, 1],
        By::Reading(0, (1, 5, 22, 5, 13), 40),
        &[
            3, 1, 1, 5, 12, 2, 5, 1, 6, 14, 1, 7, 1, 20, 22, 1, 1, 1, 5, 22, 5, 13,
        ],
    ),
    (
        "not in order, and a closed one is left",
        &[2, 7, 9, 1, 1, 1, 20, 22, 1, 1, 1, 5, 12, 2, 5],
        By::Reading(1, (1, 5, 22, 4, 6), 40),
        &[2, 1, 1, 20, 22, 1, 1, 1, 5, 12, 2, 5, 1, 5, 22, 4, 6],
    ),
    (
        "an equal one is left, so none is retracted",
        &[1, 5, 12, 2, 5, 1, 5, 12, 2, 5],
        By::Reading(1, (1, 5, 20, 3, 6), 40),
        &[0, 1, 1, 5, 20, 3, 6],
    ),
    (
        "two equal ones are taken in, so both are",
        &[1, 5, 12, 2, 5, 1, 5, 12, 2, 5],
        By::Reading(0, (1, 5, 12, 5, 11), 40),
        &[2, 1, 1, 5, 12, 2, 5, 1, 5, 12, 2, 5, 1, 5, 12, 5, 11],
    ),
    (
        "it becomes equal to one that is left, so none is added",
        &[1, 5, 20, 3, 6, 1, 5, 12, 2, 5],
        By::Reading(1, (1, 5, 20, 3, 6), 40),
        &[1, 0, 1, 5, 12, 2, 5],
    ),
    (
        "it becomes equal to one taken in, so that one stays",
        &[1, 5, 12, 0, 0, 1, 5, 20, 3, 6],
        By::Reading(0, (1, 5, 20, 3, 6), 40),
        &[1, 0, 1, 5, 12, 0, 0],
    ),
];

fn written(rt: &impl Abort, rows: &[u64], by: By) -> [u64; OUT] {
    let rows = Rows::new(rows, rows.len() / 5);
    assert!(rt; rows.len <= 3);
    let mut out = OLD;
    let many = match by {
        By::Watermark(from, to) => {
            let clock = clock_at(from);
            assert!(rt; clock.watermark <= to);
            by_watermark(rows, clock, to, &mut out)
        }
        By::Reading(others, (card, from, to, count, sum), watermark) => {
            assert!(rt; others <= rows.len);
            let placed = Placed {
                visit: visit(card, from, to, count, sum),
                at: 0,
                others,
            };
            by_reading(rows, placed, clock_at(watermark), &mut out)
        }
    };
    assert_eq!(rt; many as u64, out[0].wrapping_add(out[1]));
    out
}

fn old_behind(rt: &impl Abort, expected: &[u64]) -> [u64; OUT] {
    let end = expected.len();
    assert!(rt; end <= OUT);
    let mut out = OLD;
    out[0..end].copy_from_slice(expected);
    out
}

#[test]
fn changes(rt: HostRuntime) {
    for (what, rows, by, expected) in CASES {
        assert_eq!(rt;
            written(&rt, rows, by),
            old_behind(&rt, expected),
            "{}",
            what
        );
    }
}

// Of two that are near only the closed one is retracted.
#[test]
fn apart(rt: HostRuntime) {
    let near = [visit(1, 5, 20, 3, 6), visit(1, 33, 33, 1, 4)];
    let mut out = OLD;
    let many = by_reading_apart(&near, visit(1, 5, 33, 5, 15), clock_at(40), &mut out);
    let mut after = OLD;
    after[0..7].copy_from_slice(&[1, 0, 1, 5, 20, 3, 6]);
    assert_eq!(rt; many, 1);
    assert_eq!(rt; out, after, "it becomes an open one");
    let many = by_reading_apart(&near, visit(1, 5, 33, 5, 15), clock_at(44), &mut out);
    after[0..17].copy_from_slice(&[2, 1, 1, 5, 20, 3, 6, 1, 33, 33, 1, 4, 1, 5, 33, 5, 15]);
    assert_eq!(rt; many, 3);
    assert_eq!(rt; out, after, "it becomes a closed one");
}

#[test]
fn room(rt: HostRuntime) {
    assert_eq!(rt; width(), 5132);
}
