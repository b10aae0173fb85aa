// Lines and visits taken from the ledger.
ghost use Rattle.std.specs.Prelude.{◌≡◌, ◌<◌};
ghost use Rattle.ledger.specs.Keys.{first_of_key};
ghost use Rattle.ledger.specs.Taken.{taken_at};
ghost use Rattle.rows.specs.Search.{Allows};
ghost use Rattle.rows.specs.Tables.{Becomes, rows_of, rows_seen};
ghost use Rattle.model.specs.Ledger.{take_line, take_visits};
ghost use Rattle.visit.specs.Lines.{line_before, line_of};
ghost use Rattle.visit.specs.Order.{RisingBy};

use rows::search::Search;
use rows::table::{Rows, Table};
use visit::{Line, Terms, Visit};

// Takes the line from the one at this place, which goes if that was all of its visits.
#[tactic(auto, using(rows::proofs::Becoming::length_of, crate::proofs::Entries::taken_gone, crate::proofs::Entries::taken_less))]
fn take_at(table: &mut Table<'_, Line>, at: usize, line: Line)
    requires { at < table.old.len }
    ensures after { Becomes table.old table.new table.old.len (taken_at line at (rows_of table.old)) }
{
    let found = table.row(at);
    if found.visits == line.visits {
        table.remove(at);
    } else {
        table.put(at, found.minus(line));
    }
}

// Takes the line from the first of its key, if there is one.
#[tactic(auto, using(rows::proofs::Becoming::becomes_itself, crate::proofs::Entries::row_within, crate::proofs::Entries::take_found, crate::proofs::Entries::take_none))]
pub fn take(table: &mut Table<'_, Line>, line: Line, terms: Terms, search: Search)
    requires order { Allows search (RisingBy (line_before terms) (rows_of table.old)) }
    ensures after { Becomes table.old table.new table.old.len (take_line terms line (rows_of table.old)) }
{
    let Some(at) = find(table.rows(), line, terms, search) else {
        return;
    };
    take_at(table, at, line);
}

// The place of the first line of the key, if there is one.
#[tactic(auto, using(crate::proofs::Found::found_there))]
fn find(rows: Rows<'_, Line>, line: Line, terms: Terms, search: Search) -> Option<usize>
    requires order { Allows search (RisingBy (line_before terms) (rows_seen rows)) }
    ensures { result ≡ first_of_key terms line (rows_seen rows.entry) }
{
    match search {
        Search::FromFront => rows.iter().position(|row| row.same_key(line, terms)),
        Search::ByHalves => {
            let at = rows.place(line, terms, search);
            match rows.get(at) {
                Some(found) if found.same_key(line, terms) => Some(at),
                _ => None,
            }
        }
    }
}

// Takes a visit from the ledger, as the line that it makes alone.
fn take_visit(table: &mut Table<'_, Line>, visit: Visit, terms: Terms, search: Search)
    requires order { Allows search (RisingBy (line_before terms) (rows_of table.old)) }
    ensures after { Becomes table.old table.new table.old.len (take_line terms (line_of terms visit) (rows_of table.old)) }
{
    take(table, visit.line(terms), terms, search);
}

// Takes visits from the ledger, one after the other. Apart from `add_visits`, since adding asks for room and taking does not.
#[tactic(auto, using(rows::proofs::Becoming::becomes_itself))]
pub fn take_visits(
    table: &mut Table<'_, Line>,
    visits: Rows<'_, Visit>,
    terms: Terms,
    search: Search,
)
    requires order { Allows search (RisingBy (line_before terms) (rows_of table.old)) }
    ensures after { Becomes table.old table.new table.old.len (take_visits terms (rows_seen visits.entry) (rows_of table.old)) }
{
    for visit in visits {
        take_visit(table, visit, terms, search);
    }
}
