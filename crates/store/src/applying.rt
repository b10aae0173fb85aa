// A command done to a store in a borrowed row of numbers, which is what callers have.
ghost use Rattle.std.specs.Prelude.{◌≡◌, ◌≤◌, true, length};
ghost use Rattle.changes.specs.Room.{out_width};
ghost use Rattle.rows.specs.Search.{Allows};
ghost use Rattle.store.specs.Applied.{applied, full};
ghost use Rattle.store.specs.Checks.{sound_row};
ghost use Rattle.store.specs.Contents.{store_in, store_of, terms_in};
ghost use Rattle.store.specs.Order.{Orderly};
ghost use Rattle.store.specs.Parts.{Long, parts_from};
ghost use Rattle.store.specs.Steps.{Performable, Performed};

use crate::capacity::{Capacity, FULL};
use crate::checks::{Ready, check, check_sound};
use crate::layout::{LINES_AT, READINGS_AT, STORE_SIZE, VISITS_AT};
use crate::steps::{draft, finish};
use command::Reply;
use rows::out::ChangedRows;
use rows::search::Search;
use rows::table::Table;

// How many visits changed. Cells and tables are parameters of their own, since the end of a loan is not followed through a struct of
// several tables, nor to a table of cells that are cut in the same function.
fn perform(
    head: &mut [u64],
    visits: &mut [u64],
    readings: &mut [u64],
    lines: &mut [u64],
    ready: Ready,
    search: Search,
    out: &mut [u64],
) -> usize
    requires long { Long (parts_from head.old visits.old readings.old lines.old) }
    requires performable { Performable ready.header (store_of ready.header (parts_from head.old visits.old readings.old lines.old)) ready.command }
    requires order { Allows search (Orderly ready.header.clock.terms (store_of ready.header (parts_from head.old visits.old readings.old lines.old))) }
    requires out { out_width ≤ length out.old }
    ensures { Performed ready (parts_from head.old visits.old readings.old lines.old) (parts_from head.new visits.new readings.new lines.new) result out.old out.new }
{
    let Ready { header, command } = ready;
    let mut visits = Table::new(visits, header.visits);
    let mut readings = Table::new(readings, header.readings);
    let mut lines = Table::new(lines, header.lines);
    let drafted = draft(
        &mut visits,
        &mut readings,
        header.clock,
        command,
        search,
        out,
    );
    let changed = ChangedRows::read(out);
    finish(
        head,
        &mut visits,
        &mut readings,
        &mut lines,
        drafted,
        search,
        changed,
    );
    drafted.changed
}

// Does a command to a row that is known to be a store, or leaves both rows as they were and says why. By halves it searches where
// the store is known to be in order.
pub fn apply_sound(
    capacity: Capacity,
    search: Search,
    store: &mut [u64],
    row: &[u64],
    out: &mut [u64],
) -> Reply
    requires sound { sound_row store.old ≡ true }
    requires order { Allows search (Orderly (terms_in store.old) (store_in store.old)) }
    ensures reply { result ≡ (applied capacity store.old row.now out.old).reply }
    ensures store { store.new ≡ (applied capacity store.old row.now out.old).store }
    ensures out { out.new ≡ (applied capacity store.old row.now out.old).out }
{
    let ready = check(capacity, search, store, row, out.len())?;
    let (head, rest) = store.split_at_mut(VISITS_AT);
    let (visits, rest) = rest.split_at_mut(READINGS_AT - VISITS_AT);
    let (readings, rest) = rest.split_at_mut(LINES_AT - READINGS_AT);
    let (lines, _) = rest.split_at_mut(STORE_SIZE - LINES_AT);
    Ok(perform(head, visits, readings, lines, ready, search, out) as u64)
}

// The same on any row, of which nothing is known, so it is searched from the front.
pub fn apply_within(capacity: Capacity, store: &mut [u64], row: &[u64], out: &mut [u64]) -> Reply
    ensures reply { result ≡ (applied capacity store.old row.now out.old).reply }
    ensures store { store.new ≡ (applied capacity store.old row.now out.old).store }
    ensures out { out.new ≡ (applied capacity store.old row.now out.old).out }
{
    check_sound(store)?;
    apply_sound(capacity, Search::FromFront, store, row, out)
}

// With all the room that the layout has.
pub fn apply(store: &mut [u64], row: &[u64], out: &mut [u64]) -> Reply
    ensures reply { result ≡ (applied full store.old row.now out.old).reply }
    ensures store { store.new ≡ (applied full store.old row.now out.old).store }
    ensures out { out.new ≡ (applied full store.old row.now out.old).out }
{
    apply_within(FULL, store, row, out)
}
