// A store that owns its row of numbers, and answers with the visits themselves.
#![tactic(auto)]

mod answers;
mod state;

ghost use Rattle.changes.specs.Out.{outcome_row, overlay};
ghost use Rattle.command.specs.Outcomes.{outcome_of, reply_of};
ghost use Rattle.owned.specs.Rows.{lines_shown, outcome_to, row_then};
ghost use Rattle.owned.specs.State.{IsNew, capacity_of, out_long, row_of};
ghost use Rattle.owned.specs.Written.{amount_in, below_limits};
ghost use Rattle.std.specs.Prelude.{◌≡◌, true, length, IfOk};
ghost use Rattle.store.specs.Checks.{sound_row};

use answers::answer_of;
use command::cells::COMMAND_WIDTH;
use command::{Answer, Command, Reply};
use rows::limits::{COUNT_LIMIT, SUM_LIMIT};
use rows::row::Row;
use rows::search::Search;
use rows::table::Rows;
pub use state::OwnedStore;
use std::alloc::{AllocError, Global};
use store::applying::{apply_sound, apply_within};
use store::capacity::Capacity;
use store::header::Header;
use store::layout::{LINES_AT, LINES_ROOM, OUT_SIZE, STORE_SIZE};
use store::opening::clear;
use visit::{Line, Terms};

// The most that a command adds to the sum of all amounts.
fn amount_in(command: Command) -> u64
    ensures { result ≡ amount_in command }
{
    match command {
        Command::Reading(e) => e.amount,
        Command::Watermark(_) => 0,
    }
}

// With such totals no number in the row can be over its limit.
fn below_limits(amount: u64, taken: u64) -> bool
    ensures { result ≡ below_limits amount taken }
{
    amount < SUM_LIMIT && taken < COUNT_LIMIT
}

// Does a command to a lent row, of which nothing is known, and answers with the visits that changed.
pub fn answer(
    heap: Global,
    capacity: Capacity,
    row: &mut [u64],
    out: &mut [u64],
    command: Command,
) -> Result<Answer, AllocError>
    ensures answer { IfOk result (λ a. outcome_of a ≡ outcome_to capacity row.old (length out.old) command) }
    ensures row { row.new ≡ row_then capacity row.old (length out.old) command }
{
    let cells: [u64; COMMAND_WIDTH] = command.into();
    let reply = apply_within(capacity, row, &cells, out);
    answer_of(heap, reply, out)
}

// The same to a row that is known to be a store: it is not looked through.
pub fn answer_sound(
    heap: Global,
    capacity: Capacity,
    row: &mut [u64],
    out: &mut [u64],
    command: Command,
) -> Result<Answer, AllocError>
    requires { sound_row row.old ≡ true }
    ensures answer { IfOk result (λ a. outcome_of a ≡ outcome_to capacity row.old (length out.old) command) }
    ensures row { row.new ≡ row_then capacity row.old (length out.old) command }
{
    let cells: [u64; COMMAND_WIDTH] = command.into();
    let reply = apply_sound(capacity, Search::FromFront, row, &cells, out);
    answer_of(heap, reply, out)
}

// The lines of a store; none if the row is too short for one.
pub fn lines_of(heap: Global, row: &[u64]) -> Result<Vec<Line>, AllocError>
    ensures { IfOk result (λ v. v.items ≡ lines_shown row.now) }
{
    if row.len() < STORE_SIZE {
        return Ok(Vec::new(heap));
    }
    let header = Header::read(row);
    let lines = Rows::<Line>::new(&row[LINES_AT..STORE_SIZE], header.lines.min(LINES_ROOM));
    lines.iter().collect(heap)
}

impl OwnedStore {
    // An empty store under these terms, whatever they are: out of bounds, every command is refused for them.
    pub fn new(heap: Global, terms: Terms, capacity: Capacity) -> Result<OwnedStore, AllocError>
        ensures { IfOk result (IsNew terms capacity) }
    {
        let mut row = vec![in heap; 0; STORE_SIZE]?;
        let out = vec![in heap; 0; OUT_SIZE]?;
        clear(row.as_mut_slice(), terms);
        Ok(OwnedStore {
            row,
            out,
            capacity,
            amount: 0,
            taken: 0,
        })
    }

    pub fn apply(&mut self, heap: Global, command: Command) -> Result<Answer, AllocError>
        ensures answer { IfOk result (λ a. outcome_of a ≡ outcome_to (capacity_of self.old) (row_of self.old) (out_long self.old) command) }
        ensures row { row_of self.new ≡ row_then (capacity_of self.old) (row_of self.old) (out_long self.old) command }
        ensures out { out_long self.new ≡ out_long self.old }
        ensures capacity { capacity_of self.new ≡ capacity_of self.old }
    {
        let reply = self.reply_to(command);
        answer_of(heap, reply, self.out.as_slice())
    }

    // Does a command to the row. Below their limits the totals say that it is a store; that it is in order always holds.
    fn reply_to(&mut self, command: Command) -> Reply
        ensures reply { result ≡ reply_of (outcome_to (capacity_of self.old) (row_of self.old) (out_long self.old) command) }
        ensures row { row_of self.new ≡ row_then (capacity_of self.old) (row_of self.old) (out_long self.old) command }
        ensures out { self.new.out.items ≡ overlay (outcome_row (outcome_to (capacity_of self.old) (row_of self.old) (out_long self.old) command)) self.old.out.items }
        ensures long { out_long self.new ≡ out_long self.old }
        ensures capacity { capacity_of self.new ≡ capacity_of self.old }
    {
        let sound = below_limits(self.amount, self.taken);
        self.amount = self.amount.saturating_add(amount_in(command));
        self.taken = self.taken.saturating_add(1);
        let capacity = self.capacity;
        let cells: [u64; COMMAND_WIDTH] = command.into();
        let row = self.row.as_mut_slice();
        let out = self.out.as_mut_slice();
        if sound {
            apply_sound(capacity, Search::ByHalves, row, &cells, out)
        } else {
            apply_within(capacity, row, &cells, out)
        }
    }

    // The lines that stand in the row, of which there is room for so many.
    pub fn ledger(&self, heap: Global) -> Result<Vec<Line>, AllocError>
        ensures { IfOk result (λ v. v.items ≡ lines_shown (row_of self.now)) }
    {
        lines_of(heap, self.row.as_slice())
    }
}
