// The readings that are kept, as rows of a borrowed table of numbers.
#![tactic(auto)]

ghost use Rattle.std.specs.Prelude.{◌≡◌, ◌+◌};
ghost use Rattle.model.specs.Sessions.{contains, insert_reading};
ghost use Rattle.model.specs.Store.{kept_only};
ghost use Rattle.rows.specs.Search.{Allows};
ghost use Rattle.rows.specs.Tables.{Becomes, HasRoom, rows_of, rows_seen};
ghost use Rattle.visit.specs.Order.{RisingBy};
ghost use Rattle.visit.specs.Readings.{reading_before};

use rows::search::Search;
use rows::table::{Rows, Table};
use visit::{Clock, Reading, Terms};

#[cfg(test)]
mod tests;

// Drops the readings that would be too late. The cells that they leave are 0.
pub fn expire(table: &mut Table<'_, Reading>, clock: Clock)
    ensures after { Becomes table.old table.new table.old.len (kept_only clock.terms clock.watermark (rows_of table.old)) }
{
    table.retain(|reading| reading.kept(clock));
}

// Whether the reading is among the rows.
#[tactic(auto, using(crate::proofs::Found::found_there))]
pub fn contains(rows: Rows<'_, Reading>, reading: Reading, terms: Terms, search: Search) -> bool
    requires order { Allows search (RisingBy (reading_before terms) (rows_seen rows)) }
    ensures { result ≡ contains terms reading (rows_seen rows.entry) }
{
    match search {
        Search::FromFront => rows.iter().any(|other| reading.same(other, terms)),
        Search::ByHalves => match rows.get(rows.place(reading, terms, search)) {
            Some(other) => reading.same(other, terms),
            None => false,
        },
    }
}

// Puts the reading at its place in the order. As in the reference, but over lent memory: room is asked for, and nothing can fail.
pub fn insert(table: &mut Table<'_, Reading>, reading: Reading, terms: Terms, search: Search)
    requires order { Allows search (RisingBy (reading_before terms) (rows_of table.old)) }
    requires room { HasRoom table.old 1 }
    ensures after { Becomes table.old table.new (table.old.len + 1) (insert_reading terms reading (rows_of table.old)) }
{
    let at = table.rows().place(reading, terms, search);
    table.insert(at, reading);
}
