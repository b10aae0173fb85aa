// The row into which a command writes its changes: two counts, the visits retracted, the visits added.
ghost use Rattle.rows.specs.Out.{gone_count, gone_in, new_count, new_in, out_end, out_head};
ghost use Rattle.std.specs.Prelude.{◌≡◌, ◌≤◌, length};

use crate::row::Row;
use crate::table::Rows;
use visit::Visit;

// Where the visits begin.
pub const OUT_HEAD: usize = 2;

// The visits that are closed no longer, and those that are closed now.
#[derive(Clone, Copy)]
pub struct ChangedRows<'a> {
    pub retracted: Rows<'a, Visit>,
    pub added: Rows<'a, Visit>,
}

impl<'a> ChangedRows<'a> {
    ghost use Rattle.rows.specs.Tables.{rows_seen};

    pub fn read(out: &'a [u64]) -> ChangedRows<'a>
        requires counts { out_head ≤ length out.now }
        requires within { out_end out.now ≤ length out.now }
        ensures retracted { rows_seen result.retracted ≡ gone_in out.now }
        ensures added { rows_seen result.added ≡ new_in out.now }
        ensures retracted_len { result.retracted.len ≡ gone_count out.now }
        ensures added_len { result.added.len ≡ new_count out.now }
    {
        let retracted = out[0] as usize;
        let added_at = OUT_HEAD + retracted * Visit::WIDTH;
        ChangedRows {
            retracted: Rows::new(&out[OUT_HEAD..], retracted),
            added: Rows::new(&out[added_at..], out[1] as usize),
        }
    }
}
