// What a reading changes, found by comparing, since visits that are not in order may have an equal one besides.
ghost use Rattle.std.specs.Prelude.{◌≡◌, ◌+◌, ◌*◌, ◌≤◌, length};
ghost use Rattle.changes.specs.Changed.{closed_besides, compared, retracted_rows};
ghost use Rattle.model.specs.Sessions.{some};
ghost use Rattle.rows.specs.Out.{out_head};
ghost use Rattle.changes.specs.Out.{OutAfter, OutHolds, PutInFront};
ghost use Rattle.rows.specs.Tables.{rows_seen};
ghost use Rattle.rows.specs.Visits.{visit_width};
ghost use Rattle.visit.specs.Visits.{same_visit};

use crate::out::put_added;
use live::merging::Placed;
use rows::access::put_rows;
use rows::out::OUT_HEAD;
use rows::table::Rows;
use visit::{Clock, Terms, Visit};

// Whether the visit is the same as one of these.
fn contains(rows: Rows<'_, Visit>, visit: Visit, terms: Terms) -> bool
    ensures { result ≡ some (same_visit terms visit) (rows_seen rows.entry) }
{
    rows.iter().any(|row| visit.same(row, terms))
}

// Whether the visit is closed and the same as none of these.
fn closed_besides(rows: Rows<'_, Visit>, visit: Visit, clock: Clock) -> bool
    ensures { result ≡ closed_besides clock.terms clock.watermark (rows_seen rows.entry) visit }
{
    visit.closed(clock) && !contains(rows, visit, clock.terms)
}

// Those taken in that were closed and are there no longer, written to the front of `target`: how many.
fn put_retracted(rows: Rows<'_, Visit>, placed: Placed, clock: Clock, target: &mut [u64]) -> usize
    requires place { placed.others ≤ rows.len }
    requires room { rows.len * visit_width ≤ length target.old }
    ensures few { result ≤ rows.entry.len }
    ensures put { PutInFront (retracted_rows clock.terms clock.watermark placed (rows_seen rows.entry)) result target.old target.new }
{
    let Placed { visit, others, .. } = placed;
    let (left, taken) = rows.split_at(others);
    let missed = |row: &Visit| !row.same(visit, clock.terms) && closed_besides(left, *row, clock);
    put_rows(target, taken.iter().filter(missed))
}

// After a visit has taken in others and before it is put into the table: the rows that are left stand first, behind them those
// that were taken in. How many visits changed.
pub fn by_reading(rows: Rows<'_, Visit>, placed: Placed, clock: Clock, out: &mut [u64]) -> usize
    requires place { placed.others ≤ rows.len }
    requires room { OutHolds (rows.len + 1) out.old }
    ensures { OutAfter (compared clock.terms clock.watermark placed (rows_seen rows.entry)) result out.old out.new }
{
    let retracted = put_retracted(rows, placed, clock, &mut out[OUT_HEAD..]);
    let added = closed_besides(rows, placed.visit, clock).then_some(placed.visit);
    put_added(out, retracted, added)
}
