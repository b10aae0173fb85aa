// Why a command is refused: each check hands on its value or leaves with the refusal, and nothing is changed.
ghost use Rattle.std.specs.Prelude.{◌≡◌, ◌+◌, ◌^◌, ◌<◌, [], ◌∷◌, true, length, Ok};
ghost use Rattle.command.specs.Bounds.{terms_fault, unless};
ghost use Rattle.command.specs.declared.Refusal.TheVariants.{BadStore};
ghost use Rattle.rows.specs.Limits.{first_over};
ghost use Rattle.rows.specs.Search.{Allows};
ghost use Rattle.std.specs.List.{repeat};
ghost use Rattle.std.specs.Option.{option_map};
ghost use Rattle.store.specs.Checks.{checked, sound_row};
ghost use Rattle.store.specs.Contents.{store_in, terms_in};
ghost use Rattle.store.specs.Faults.{first_fault, out_fault, store_faults, watermark_fault};
ghost use Rattle.store.specs.Order.{Orderly};
ghost use Rattle.visit.specs.Order.{RisingBy};
ghost use Rattle.visit.specs.Readings.{reading_before};

use crate::capacity::Capacity;
use crate::header::Header;
use crate::layout::{
    LINES_AT, LINES_ROOM, OUT_SIZE, READINGS_AT, READINGS_ROOM, STORE_SIZE, VISITS_AT, VISITS_ROOM,
};
use crate::view::View;
use command::{Command, Refusal, TIME_LIMIT, check_terms};
use live::open::open_count;
use rows::limits::over;
use rows::row::Row;
use rows::search::Search;
use rows::table::Rows;
use seen::contains;
use visit::Clock;

// The header of a store, and a command that it can take.
#[derive(Clone, Copy)]
pub struct Ready {
    pub header: Header,
    pub command: Command,
}

// No number of a table, which stands at `at`, is over its limit.
#[tactic(auto, using(crate::proofs::Places::over_from, rows::proofs::Overs::over_within))]
fn check_table<R: Row>(rows: Rows<'_, R>, at: usize) -> Result<(), Refusal>
    requires { at + length rows.cells.now < 2 ^ 64 }
    ensures { result ≡ unless (option_map BadStore (first_over at (repeat rows.entry.len R.limits) rows.entry.cells.now)) tt }
{
    match rows.first_over() {
        Some(i) => Err(Refusal::BadStore((at + i) as u64)),
        None => Ok(()),
    }
}

// The row is a store: long enough, with every number within its limit. `open` refuses a short row too; both say it where they return.
pub fn check_sound(store: &[u64]) -> Result<(), Refusal>
    ensures { result ≡ first_fault (store_faults store.now) (Ok tt) }
{
    if store.len() < STORE_SIZE {
        return Err(Refusal::BadStore(store.len() as u64));
    }
    if let Some(at) = over(store, Header::limits()) {
        return Err(Refusal::BadStore(at as u64));
    }
    let view = View::new(store);
    check_table(view.visits, VISITS_AT)?;
    check_table(view.readings, READINGS_AT)?;
    check_table(view.lines, LINES_AT)
}

// Terms and watermark are within their bounds.
fn check_clock(clock: Clock) -> Result<(), Refusal>
    ensures { result ≡ first_fault (terms_fault clock.terms ∷ watermark_fault clock.watermark ∷ []) (Ok tt) }
{
    check_terms(clock.terms)?;
    if clock.watermark < TIME_LIMIT {
        Ok(())
    } else {
        Err(Refusal::BadTerms(3))
    }
}

// There is enough room for what any command changes.
fn check_out(out: usize) -> Result<(), Refusal>
    ensures { result ≡ unless (out_fault out) tt }
{
    if out < OUT_SIZE {
        Err(Refusal::ShortOut(out as u64))
    } else {
        Ok(())
    }
}

impl View<'_> {
    ghost use Rattle.model.specs.Store.{draft as DraftOf};
    ghost use Rattle.rows.specs.Tables.{rows_seen};
    ghost use Rattle.store.specs.Checks.{refusal_of};
    ghost use Rattle.store.specs.Faults.{room_fault};
    ghost use Rattle.store.specs.Views.{header_seen, store_seen};

    // What a command may need is free: for a reading a visit, a reading and a line, for a watermark a line for each open visit.
    pub fn check_room(&self, capacity: Capacity, command: Command) -> Result<(), Refusal>
        ensures { result ≡ unless (room_fault capacity (header_seen self.now) (store_seen self.now) command) tt }
    {
        match command {
            Command::Reading(_) => {
                if self.visits.len >= capacity.visits.min(VISITS_ROOM) {
                    return Err(Refusal::Full(4));
                }
                if self.readings.len >= capacity.readings.min(READINGS_ROOM) {
                    return Err(Refusal::Full(5));
                }
                if self.lines.len + self.visits.len >= LINES_ROOM {
                    return Err(Refusal::Full(6));
                }
            }
            Command::Watermark(_) => {
                // The open visits are counted only where all the visits might be too many.
                if self.lines.len + self.visits.len > LINES_ROOM
                    && self.lines.len + open_count(self.visits, self.clock) > LINES_ROOM
                {
                    return Err(Refusal::Full(6));
                }
            }
        }
        Ok(())
    }

    // Not too late, no duplicate, and not backwards. As in the reference, which searches a `Vec`: one function for both would get the
    // search as a closure, and each caller would have to say its contract again.
    pub fn check_rules(&self, command: Command, search: Search) -> Result<(), Refusal>
        requires { Allows search (RisingBy (reading_before self.now.clock.terms) (rows_seen self.now.readings)) }
        ensures { result ≡ unless (refusal_of (DraftOf self.now.clock.terms (store_seen self.now) command)) tt }
    {
        match command {
            Command::Reading(reading) => {
                if reading.too_late(self.clock) {
                    return Err(Refusal::TooLate(reading.time));
                }
                if contains(self.readings, reading, self.clock.terms, search) {
                    return Err(Refusal::Duplicate(reading.time));
                }
            }
            Command::Watermark(watermark) => {
                if watermark < self.clock.watermark {
                    return Err(Refusal::Backwards(watermark));
                }
            }
        }
        Ok(())
    }
}

// All that is asked of a command to a store, in its order.
pub fn check(
    capacity: Capacity,
    search: Search,
    store: &[u64],
    row: &[u64],
    out: usize,
) -> Result<Ready, Refusal>
    requires sound { sound_row store.now ≡ true }
    requires order { Allows search (Orderly (terms_in store.now) (store_in store.now)) }
    ensures { result ≡ checked capacity store.now row.now out }
{
    let view = View::new(store);
    check_clock(view.clock)?;
    let command = Command::try_from(row)?;
    check_out(out)?;
    view.check_room(capacity, command)?;
    view.check_rules(command, search)?;
    Ok(Ready {
        header: view.header(),
        command,
    })
}
