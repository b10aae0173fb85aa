// Lines and visits put to the ledger.
ghost use Rattle.std.specs.Prelude.{max};
ghost use Rattle.visit.specs.Lines.{line_before, line_of};
ghost use Rattle.visit.specs.Order.{RisingBy};
ghost use Rattle.visit.specs.Sums.{sums};
ghost use Rattle.ledger.specs.Fits.{Fits};
ghost use Rattle.rows.specs.Search.{Allows};
ghost use Rattle.rows.specs.Tables.{Becomes, HasRoom, rows_of, rows_seen};
ghost use Rattle.model.specs.Ledger.{add_line, add_visits};

use rows::search::Search;
use rows::table::{Rows, Table};
use visit::{Line, Terms, Visit};

// Puts the line to the one of its key, or else at its place. As in the reference, but over lent memory: room is asked for, and nothing can fail.
pub fn add(table: &mut Table<'_, Line>, line: Line, terms: Terms, search: Search)
    requires order { Allows search (RisingBy (line_before terms) (rows_of table.old)) }
    requires room { HasRoom table.old 1 }
    requires fits { Fits line.visits line.sum (rows_of table.old) }
    ensures after { Becomes table.old table.new (max table.old.len table.new.len) (add_line terms line (rows_of table.old)) }
{
    let rows = table.rows();
    let at = rows.place(line, terms, search);
    match rows.get(at) {
        Some(found) if found.same_key(line, terms) => table.put(at, found.plus(line)),
        _ => table.insert(at, line),
    }
}

// Puts a visit to the ledger, as the line that it makes alone.
#[tactic(auto, unfolding(visit::specs::Lines::line_of))]
fn add_visit(table: &mut Table<'_, Line>, visit: Visit, terms: Terms, search: Search)
    requires order { Allows search (RisingBy (line_before terms) (rows_of table.old)) }
    requires room { HasRoom table.old 1 }
    requires fits { Fits 1 visit.sum (rows_of table.old) }
    ensures after { Becomes table.old table.new (max table.old.len table.new.len) (add_line terms (line_of terms visit) (rows_of table.old)) }
{
    add(table, visit.line(terms), terms, search);
}

// Puts visits to the ledger, one after the other.
#[tactic(auto, using(rows::proofs::Becoming::becomes_itself))]
pub fn add_visits(
    table: &mut Table<'_, Line>,
    visits: Rows<'_, Visit>,
    terms: Terms,
    search: Search,
)
    requires order { Allows search (RisingBy (line_before terms) (rows_of table.old)) }
    requires room { HasRoom table.old visits.len }
    requires fits { Fits visits.len (sums (rows_seen visits)) (rows_of table.old) }
    ensures after { Becomes table.old table.new (max table.old.len table.new.len) (add_visits terms (rows_seen visits.entry) (rows_of table.old)) }
{
    for visit in visits {
        add_visit(table, visit, terms, search);
    }
}
