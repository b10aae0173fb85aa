// A visit merged into the visits of a table.
ghost use Rattle.std.specs.Prelude.{◌≡◌, ◌+◌, ◌^◌, ◌<◌, ◌≤◌, max, ◌++◌, take};
ghost use Rattle.rows.specs.Tables.{Becomes, HasRoom, rows_of};
ghost use Rattle.visit.specs.Sums.{SumsFit};
ghost use Rattle.live.specs.Walk.{left_over, placed_of, taken_in};
ghost use Rattle.model.specs.Store.{merge_in};
ghost use Rattle.std.specs.List.{insert};

use crate::steps::{Step, next_step};
use rows::table::Table;
use visit::{Terms, Visit};

// A visit that has taken in others, its place, and how many are left besides.
#[derive(Clone, Copy)]
pub struct Placed {
    pub visit: Visit,
    pub at: usize,
    pub others: usize,
}

// From the front: ones before the visit are passed, near ones are taken in and move behind all others, where the caller can still read them.
pub fn set_aside(table: &mut Table<'_, Visit>, visit: Visit, terms: Terms) -> Placed
    requires fits { SumsFit (rows_of table.old) visit.count visit.sum }
    ensures placed { result ≡ placed_of terms visit (rows_of table.old) }
    ensures after { Becomes table.old table.new table.old.len (left_over terms visit (rows_of table.old) ++ taken_in terms visit (rows_of table.old)) }
{
    let mut grown = visit;
    let mut others = table.len;
    let mut at = 0;
    // By place, since the table changes under the walk.
    while at < others {
        let row = table.row(at);
        match next_step(grown, row, terms) {
            Step::Take => {
                grown = grown.merge(row);
                table.remove(at);
                table.insert(table.len, row);
                others -= 1;
            }
            Step::Pass => at += 1,
            Step::Stop => break,
        }
    }
    Placed {
        visit: grown,
        at,
        others,
    }
}

// Only the first `others` rows stay, and the visit is put among them.
#[tactic(auto, using(crate::proofs::Placing::cut_len, crate::proofs::Placing::cut_long, crate::proofs::Placing::cut_put))]
pub fn place(table: &mut Table<'_, Visit>, placed: Placed)
    requires place { placed.at ≤ placed.others }
    requires few { placed.others ≤ table.old.len }
    requires room { HasRoom table.old 1 }
    ensures after { Becomes table.old table.new (max table.old.len (placed.others + 1)) (insert (take placed.others (rows_of table.old)) placed.at placed.visit) }
{
    table.truncate(placed.others);
    table.insert(placed.at, placed.visit);
}

// Near visits leave the table as they are taken in. Behind the visits cells that are no longer taken are 0, and the rest is as it was.
pub fn merge(table: &mut Table<'_, Visit>, visit: Visit, terms: Terms)
    requires room { HasRoom table.old 1 }
    requires fits { SumsFit (rows_of table.old) visit.count visit.sum }
    ensures after { Becomes table.old table.new (max table.old.len table.new.len) (merge_in terms visit (rows_of table.old)) }
{
    let mut whole = visit;
    let mut at = 0;
    // By place, since the table changes under the walk.
    while at < table.len {
        let row = table.row(at);
        match next_step(whole, row, terms) {
            Step::Take => {
                whole = whole.merge(row);
                table.remove(at);
            }
            Step::Pass => at += 1,
            Step::Stop => break,
        }
    }
    table.insert(at, whole);
}
