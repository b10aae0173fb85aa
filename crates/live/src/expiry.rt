// Visits that have expired leave the table.
ghost use Rattle.rows.specs.Tables.{Becomes, rows_of};
ghost use Rattle.model.specs.Store.{live_only};

use rows::table::Table;
use visit::{Clock, Visit};

// Those that are left keep their order, and the cells that they leave are 0. One `retain`, as in `seen`, with the test of visits.
pub fn expire(table: &mut Table<'_, Visit>, clock: Clock)
    ensures after { Becomes table.old table.new table.old.len (live_only clock.terms clock.watermark (rows_of table.old)) }
{
    table.retain(|visit| visit.live(clock));
}
