// The visits that a watermark closes.
ghost use Rattle.std.specs.Prelude.{◌≡◌, ◌+◌, ◌*◌, ◌≤◌, length, filter};
ghost use Rattle.changes.specs.Changed.{newly_closed, rise};
ghost use Rattle.rows.specs.Out.{out_head};
ghost use Rattle.rows.specs.Tables.{rows_seen};
ghost use Rattle.changes.specs.Out.{OutAfter, OutHolds, PutInFront};
ghost use Rattle.rows.specs.Visits.{visit_width};

use crate::out::put_counts;
use rows::access::put_rows;
use rows::out::OUT_HEAD;
use rows::table::Rows;
use visit::{Clock, Visit};

// Those that a later watermark closes, written to the front of `target`: how many.
fn put_closing(rows: Rows<'_, Visit>, clock: Clock, to: u64, target: &mut [u64]) -> usize
    requires { rows.len * visit_width ≤ length target.old }
    ensures { PutInFront (filter (newly_closed clock.terms clock.watermark to) (rows_seen rows.entry)) result target.old target.new }
{
    let later = Clock {
        watermark: to,
        ..clock
    };
    let closing = rows
        .iter()
        .filter(|visit| visit.closed(later) && !visit.closed(clock));
    put_rows(target, closing)
}

// The visits stay, and the watermark goes from one time to a later one: how many visits changed.
pub fn by_watermark(rows: Rows<'_, Visit>, clock: Clock, to: u64, out: &mut [u64]) -> usize
    requires order { clock.watermark ≤ to }
    requires room { OutHolds rows.len out.old }
    ensures { OutAfter (rise clock.terms clock.watermark to (rows_seen rows.entry)) result out.old out.new }
{
    let added = put_closing(rows, clock, to, &mut out[OUT_HEAD..]);
    put_counts(out, 0, added);
    added
}
