// What a reading changes where the visits are in order and apart: none stands there twice, so nothing is compared.
ghost use Rattle.std.specs.Prelude.{◌≡◌, ◌+◌, ◌*◌, ◌≤◌, length};
ghost use Rattle.changes.specs.Changed.{met_changes};
ghost use Rattle.rows.specs.Out.{out_head};
ghost use Rattle.changes.specs.Out.{OutAfter, OutHolds};
ghost use Rattle.rows.specs.Visits.{visit_width};

use crate::out::put_added;
use rows::access::put_rows;
use rows::out::OUT_HEAD;
use visit::{Clock, Visit};

// The visits that a reading's own is near to, and the visit that they become with it: how many visits changed.
pub fn by_reading_apart(near: &[Visit], made: Visit, clock: Clock, out: &mut [u64]) -> usize
    requires { OutHolds (length near.now + 1) out.old }
    ensures { OutAfter (met_changes clock.terms clock.watermark made near.now) result out.old out.new }
{
    let gone = near.iter().copied().filter(|visit| visit.closed(clock));
    let retracted = put_rows(&mut out[OUT_HEAD..], gone);
    let added = made.closed(clock).then_some(made);
    put_added(out, retracted, added)
}
