// A visit merged into visits that are in order and apart, of which it is near to two at most.
ghost use Rattle.std.specs.Prelude.{◌≡◌, ◌+◌, ◌-◌, ◌^◌, ◌<◌, ◌≤◌, max};
ghost use Rattle.std.specs.List.{prefix_len};
ghost use Rattle.live.specs.Apart.{Apart, Gathers, own};
ghost use Rattle.live.specs.Near.{visits_of};
ghost use Rattle.rows.specs.Tables.{Becomes, HasRoom, rows_of, rows_seen};
ghost use Rattle.visit.specs.Sums.{SumsFit};
ghost use Rattle.visit.specs.Visits.{visit_before};
ghost use Rattle.model.specs.Few.{merged_with};
ghost use Rattle.model.specs.Store.{merge_in};

use crate::near::Near;
use crate::steps::{Step, next_step};
use rows::search::Search;
use rows::table::{Rows, Table};
use visit::{Terms, Visit};

// A visit, those that it is near to, and the place of the first of them.
#[derive(Clone, Copy)]
pub struct Gathered {
    pub visit: Visit,
    pub near: Near,
    pub at: usize,
}

// A visit of one moment is near to two at most, so there is room. They stand together, behind those that are passed.
pub fn gather(rows: Rows<'_, Visit>, visit: Visit, terms: Terms) -> Gathered
    requires moment { visit.from ≡ visit.to }
    requires apart { Apart terms (rows_seen rows) }
    ensures own { own result ≡ visit }
    ensures gathers { Gathers terms visit (rows_seen rows.entry) result }
{
    // Of the rows before the visit only the last can be near.
    let before = rows.place(visit, terms, Search::ByHalves);
    gather_from(rows, before.saturating_sub(1), visit, terms)
}

// The same by a walk from row `start` on. Those in front of it are passed: behind each stands another that is still before the visit.
fn gather_from(rows: Rows<'_, Visit>, start: usize, visit: Visit, terms: Terms) -> Gathered
    requires moment { visit.from ≡ visit.to }
    requires apart { Apart terms (rows_seen rows) }
    requires passed { start ≤ prefix_len (λ x. visit_before terms x visit) (rows_seen rows) - 1 }
    ensures own { own result ≡ visit }
    ensures gathers { Gathers terms visit (rows_seen rows.entry) result }
{
    let (_, rest) = rows.split_at(start);
    let mut near = Near::Neither;
    // Counted by hand, since the place is a part of the answer.
    let mut at = start;
    for row in rest {
        match next_step(visit, row, terms) {
            Step::Take => near.push(row),
            Step::Pass => at += 1,
            Step::Stop => break,
        }
    }
    Gathered { visit, near, at }
}

// One visit of all that are gathered. By a loop: for a `fold` it would have to be shown of every step that it can be called.
fn merge_all(gathered: &Gathered) -> Visit
    requires { SumsFit (visits_of gathered.now.near) (own gathered.now).count (own gathered.now).sum }
    ensures { result ≡ merged_with (own gathered.now) (visits_of gathered.now.near) }
{
    let mut whole = gathered.visit;
    for visit in gathered.near.as_slice() {
        whole = whole.merge(*visit);
    }
    whole
}

// The near visits give way to one, which is given back. The terms are asked for only to say which are near.
pub fn merge_apart(table: &mut Table<'_, Visit>, gathered: &Gathered, _terms: Terms) -> Visit
    requires room { HasRoom table.old 1 }
    requires order { (own gathered.now).from ≤ (own gathered.now).to }
    requires apart { Apart _terms (rows_of table.old) }
    requires gathers { Gathers _terms (own gathered.now) (rows_of table.old) gathered.now }
    requires fits { SumsFit (rows_of table.old) (own gathered.now).count (own gathered.now).sum }
    ensures made { result ≡ merged_with (own gathered.now) (visits_of gathered.now.near) }
    ensures after { Becomes table.old table.new (max table.old.len table.new.len) (merge_in _terms (own gathered.now) (rows_of table.old)) }
{
    let whole = merge_all(gathered);
    table.replace(gathered.at, gathered.near.len(), &[whole]);
    whole
}
