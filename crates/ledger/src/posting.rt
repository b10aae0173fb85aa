// What a command changes, brought to the ledger.
ghost use Rattle.std.specs.Prelude.{max};
ghost use Rattle.visit.specs.Lines.{line_before};
ghost use Rattle.visit.specs.Order.{RisingBy};
ghost use Rattle.visit.specs.Sums.{sums};
ghost use Rattle.ledger.specs.Fits.{Fits};
ghost use Rattle.rows.specs.Search.{Allows};
ghost use Rattle.rows.specs.Tables.{Becomes, HasRoom, rows_of, rows_seen};
ghost use Rattle.model.specs.Store.{posted};

use crate::adding::add_visits;
use crate::taking::take_visits;
use rows::out::ChangedRows;
use rows::search::Search;
use rows::table::Table;
use visit::{Line, Terms};

// All that is retracted is taken first, then all that is added is put.
pub fn post(table: &mut Table<'_, Line>, changed: ChangedRows<'_>, terms: Terms, search: Search)
    requires order { Allows search (RisingBy (line_before terms) (rows_of table.old)) }
    requires room { HasRoom table.old changed.added.len }
    requires fits { Fits changed.added.len (sums (rows_seen changed.added)) (rows_of table.old) }
    ensures after { Becomes table.old table.new (max table.old.len table.new.len) (posted terms (rows_seen changed.entry.retracted) (rows_seen changed.entry.added) (rows_of table.old)) }
{
    take_visits(table, changed.retracted, terms, search);
    add_visits(table, changed.added, terms, search);
}
