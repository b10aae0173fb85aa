// The steps of a command that has passed every check.
ghost use Rattle.std.specs.Prelude.{◌≡◌, ◌+◌, max, true, length};
ghost use Rattle.changes.specs.Changed.{merging};
ghost use Rattle.changes.specs.Out.{OutAfter, OutHolds};
ghost use Rattle.ledger.specs.Fits.{Fits};
ghost use Rattle.live.specs.Apart.{Apart};
ghost use Rattle.model.specs.Sessions.{insert_reading};
ghost use Rattle.model.specs.Store.{kept_only, live_only, merge_in, posted};
ghost use Rattle.rows.specs.Search.{Allows};
ghost use Rattle.rows.specs.declared.search.Search.TheVariants.{ByHalves};
ghost use Rattle.rows.specs.Tables.{Becomes, HasRoom, rows_of, rows_seen};
ghost use Rattle.store.specs.Header.{header_cells};
ghost use Rattle.store.specs.Layout.{header_width};
ghost use Rattle.store.specs.Order.{Current, Settled};
ghost use Rattle.store.specs.Steps.{Draftable, changes_of, clock_by, draft_of, standing, tables_header};
ghost use Rattle.visit.specs.Lines.{line_before};
ghost use Rattle.visit.specs.Order.{RisingBy};
ghost use Rattle.visit.specs.Sums.{SumsFit, sums};
ghost use Rattle.visit.specs.Visits.{single};

use crate::header::Header;
use changes::apart::by_reading_apart;
use changes::reading::by_reading;
use changes::watermark::by_watermark;
use command::Command;
use ledger::posting::post;
use live::gathering::{gather, merge_apart};
use live::merging::{place, set_aside};
use rows::out::ChangedRows;
use rows::row::Row;
use rows::search::Search;
use rows::table::Table;
use visit::{Clock, Line, Reading, Visit};

// The clock after a command, how many visits changed, and whether all that stands now is known to be live.
#[derive(Clone, Copy)]
pub struct Drafted {
    pub clock: Clock,
    pub changed: usize,
    pub settled: bool,
}

// Among any visits what changes is found by comparing, while those that were taken in still stand behind the others.
fn merge_comparing(
    visits: &mut Table<'_, Visit>,
    reading: Reading,
    clock: Clock,
    out: &mut [u64],
) -> usize
    requires room { HasRoom visits.old 1 }
    requires fits { SumsFit (rows_of visits.old) 1 reading.amount }
    requires out { OutHolds (visits.old.len + 1) out.old }
    ensures visits { Becomes visits.old visits.new (max visits.old.len visits.new.len) (merge_in clock.terms (single reading) (rows_of visits.old)) }
    ensures out { OutAfter (merging clock.terms clock.watermark (single reading) (rows_of visits.old)) result out.old out.new }
{
    let placed = set_aside(visits, reading.single(), clock.terms);
    let changed = by_reading(visits.rows(), placed, clock, out);
    place(visits, placed);
    changed
}

// Among visits that are in order and apart the near ones are found by halves, and what changes is what they were and what they become.
fn merge_near(
    visits: &mut Table<'_, Visit>,
    reading: Reading,
    clock: Clock,
    out: &mut [u64],
) -> usize
    requires room { HasRoom visits.old 1 }
    requires apart { Apart clock.terms (rows_of visits.old) }
    requires fits { SumsFit (rows_of visits.old) 1 reading.amount }
    requires out { OutHolds (visits.old.len + 1) out.old }
    ensures visits { Becomes visits.old visits.new (max visits.old.len visits.new.len) (merge_in clock.terms (single reading) (rows_of visits.old)) }
    ensures out { OutAfter (merging clock.terms clock.watermark (single reading) (rows_of visits.old)) result out.old out.new }
{
    let gathered = gather(visits.rows(), reading.single(), clock.terms);
    let made = merge_apart(visits, &gathered, clock.terms);
    by_reading_apart(gathered.near.as_slice(), made, clock, out)
}

// The reading's own visit goes among the live ones, and the reading among the kept ones: how many visits changed.
fn draft_reading(
    visits: &mut Table<'_, Visit>,
    readings: &mut Table<'_, Reading>,
    clock: Clock,
    reading: Reading,
    search: Search,
    out: &mut [u64],
) -> usize
    requires visits { HasRoom visits.old 1 }
    requires readings { HasRoom readings.old 1 }
    requires order { Allows search (Current clock.terms (standing clock visits.old readings.old)) }
    requires fits { SumsFit (rows_of visits.old) 1 reading.amount }
    requires out { OutHolds (visits.old.len + 1) out.old }
    ensures visits { Becomes visits.old visits.new (max visits.old.len visits.new.len) (merge_in clock.terms (single reading) (rows_of visits.old)) }
    ensures readings { Becomes readings.old readings.new (readings.old.len + 1) (insert_reading clock.terms reading (rows_of readings.old)) }
    ensures out { OutAfter (merging clock.terms clock.watermark (single reading) (rows_of visits.old)) result out.old out.new }
{
    let changed = match search {
        Search::FromFront => merge_comparing(visits, reading, clock, out),
        Search::ByHalves => merge_near(visits, reading, clock, out),
    };
    seen::insert(readings, reading, clock.terms, search);
    changed
}

// Whether nothing can have expired after a command: nothing had where the store is in order, and then only a watermark that rises
// makes anything expire.
fn stays_settled(search: Search, clock: Clock, command: Command) -> bool
    ensures { result ≡ true → (search ≡ ByHalves) × (clock_by clock command ≡ clock) }
{
    match (search, command) {
        (Search::FromFront, _) => false,
        (Search::ByHalves, Command::Reading(_)) => true,
        (Search::ByHalves, Command::Watermark(watermark)) => watermark == clock.watermark,
    }
}

// What a command makes of the tables before anything expires. A watermark leaves them as they are.
pub fn draft(
    visits: &mut Table<'_, Visit>,
    readings: &mut Table<'_, Reading>,
    clock: Clock,
    command: Command,
    search: Search,
    out: &mut [u64],
) -> Drafted
    requires draftable { Draftable (HasRoom visits.old 1) (HasRoom readings.old 1) clock.terms (standing clock visits.old readings.old) command }
    requires order { Allows search (Current clock.terms (standing clock visits.old readings.old)) }
    requires out { OutHolds (visits.old.len + 1) out.old }
    ensures clock { result.clock ≡ clock_by clock command }
    ensures visits { Becomes visits.old visits.new (max visits.old.len visits.new.len) (draft_of clock.terms (standing clock visits.old readings.old) command).live }
    ensures readings { Becomes readings.old readings.new (max readings.old.len readings.new.len) (draft_of clock.terms (standing clock visits.old readings.old) command).seen }
    ensures out { OutAfter (changes_of clock.terms (standing clock visits.old readings.old) command) result.changed out.old out.new }
    ensures settled { result.settled ≡ true → Settled result.clock (rows_of visits.new) (rows_of readings.new) }
{
    let settled = stays_settled(search, clock, command);
    match command {
        Command::Reading(reading) => Drafted {
            clock,
            changed: draft_reading(visits, readings, clock, reading, search, out),
            settled,
        },
        Command::Watermark(watermark) => Drafted {
            clock: Clock { watermark, ..clock },
            changed: by_watermark(visits.rows(), clock, watermark, out),
            settled,
        },
    }
}

// What has expired goes, unless it is known that nothing has.
fn expire(
    visits: &mut Table<'_, Visit>,
    readings: &mut Table<'_, Reading>,
    clock: Clock,
    settled: bool,
)
    requires { settled ≡ true → Settled clock (rows_of visits.old) (rows_of readings.old) }
    ensures visits { Becomes visits.old visits.new visits.old.len (live_only clock.terms clock.watermark (rows_of visits.old)) }
    ensures readings { Becomes readings.old readings.new readings.old.len (kept_only clock.terms clock.watermark (rows_of readings.old)) }
{
    if settled {
        return;
    }
    live::expiry::expire(visits, clock);
    seen::expire(readings, clock);
}

// One end for every kind of command: the ledger by what has changed, then what has expired goes, then the header.
pub fn finish(
    head: &mut [u64],
    visits: &mut Table<'_, Visit>,
    readings: &mut Table<'_, Reading>,
    lines: &mut Table<'_, Line>,
    drafted: Drafted,
    search: Search,
    changed: ChangedRows<'_>,
)
    requires head { length head.old ≡ header_width }
    requires room { HasRoom lines.old changed.added.len }
    requires settled { drafted.settled ≡ true → Settled drafted.clock (rows_of visits.old) (rows_of readings.old) }
    requires order { Allows search (RisingBy (line_before drafted.clock.terms) (rows_of lines.old)) }
    requires fits { Fits changed.added.len (sums (rows_seen changed.added)) (rows_of lines.old) }
    ensures head { head.new ≡ header_cells (tables_header drafted.clock visits.new readings.new lines.new) }
    ensures visits { Becomes visits.old visits.new visits.old.len (live_only drafted.clock.terms drafted.clock.watermark (rows_of visits.old)) }
    ensures readings { Becomes readings.old readings.new readings.old.len (kept_only drafted.clock.terms drafted.clock.watermark (rows_of readings.old)) }
    ensures lines { Becomes lines.old lines.new (max lines.old.len lines.new.len) (posted drafted.clock.terms (rows_seen changed.entry.retracted) (rows_seen changed.entry.added) (rows_of lines.old)) }
{
    let Drafted { clock, settled, .. } = drafted;
    post(lines, changed, clock.terms, search);
    expire(visits, readings, clock, settled);
    let header = Header {
        clock,
        visits: visits.len,
        readings: readings.len,
        lines: lines.len,
    };
    header.write(head);
}
