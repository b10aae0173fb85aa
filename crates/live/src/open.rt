// Visits of a table that may still grow.
ghost use Rattle.std.specs.Prelude.{◌≡◌, length};
ghost use Rattle.live.specs.Tables.{open_only};
ghost use Rattle.rows.specs.Tables.{rows_seen};

use rows::table::Rows;
use visit::{Clock, Visit};

// How many are not closed at the watermark.
pub fn open_count(rows: Rows<'_, Visit>, clock: Clock) -> usize
    ensures { result ≡ length (open_only clock.terms clock.watermark (rows_seen rows.entry)) }
{
    rows.iter().filter(|visit| !visit.closed(clock)).count()
}
