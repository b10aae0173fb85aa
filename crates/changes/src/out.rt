// The row that is written: the two counts in front, behind them the visits.
ghost use Rattle.std.specs.Prelude.{◌≡◌, ◌+◌, ◌*◌, ◌≤◌, ◌∷◌, length, drop, option_to_list};
ghost use Rattle.rows.specs.Out.{out_head};
ghost use Rattle.changes.specs.Out.{OutHolds, with_added};
ghost use Rattle.changes.specs.Room.{out_width};
ghost use Rattle.rows.specs.Visits.{visit_width};

use rows::access::put_rows;
use rows::out::OUT_HEAD;
use rows::row::Row;
use rows::visits::VISIT_WIDTH;
use visit::Visit;

// A store has room for so many live visits, and a reading is near to two at most where these are apart.
pub const LIVE_MOST: usize = 1024;

pub const NEAR_MOST: usize = 2;

// How many numbers the row has to have.
pub const OUT_WIDTH: usize = OUT_HEAD + (NEAR_MOST + LIVE_MOST) * VISIT_WIDTH;

// The same, as the definition says it: a constant has no clause.
pub fn width() -> usize
    ensures { result ≡ out_width }
{
    OUT_WIDTH
}

pub(crate) fn put_counts(out: &mut [u64], retracted: usize, added: usize)
    requires { out_head ≤ length out.old }
    ensures { out.new ≡ retracted ∷ added ∷ drop out_head out.old }
{
    out[0] = retracted as u64;
    out[1] = added as u64;
}

// What is common to changes by a reading, on any visits and on visits apart: the counts, and behind the visits retracted the one that is added, if any: how many there are then.
pub(crate) fn put_added(out: &mut [u64], retracted: usize, added: Option<Visit>) -> usize
    requires { OutHolds (retracted + 1) out.old }
    ensures many { result ≡ retracted + length (option_to_list added) }
    ensures out { out.new ≡ with_added retracted (option_to_list added) out.old }
{
    let start = OUT_HEAD + retracted * Visit::WIDTH;
    let added = put_rows(&mut out[start..], added.into_iter());
    put_counts(out, retracted, added);
    retracted + added
}
