// A row made an empty store.
ghost use Rattle.std.specs.Prelude.{◌≡◌, ◌≤◌, length};
ghost use Rattle.store.specs.Applied.{open_reply, open_row, opening};
ghost use Rattle.store.specs.Contents.{empty_row};
ghost use Rattle.store.specs.Layout.{store_size};

use crate::header::Header;
use crate::layout::{STORE_SIZE, VISITS_AT};
use command::{Refusal, Reply, check_terms};
use rows::row::Row;
use visit::{Clock, Terms};

// The terms as they are given, and 0 at every other place of the layout. The length is asked for, since the row is not yet a store.
pub fn clear(store: &mut [u64], terms: Terms)
    requires { store_size ≤ length store.old }
    ensures { store.new ≡ empty_row terms store.old }
{
    store[VISITS_AT..STORE_SIZE].fill(0);
    let header = Header {
        clock: Clock {
            terms,
            watermark: 0,
        },
        visits: 0,
        readings: 0,
        lines: 0,
    };
    header.write(&mut store[0..VISITS_AT]);
}

// A refusal leaves the row as it was.
pub fn open(store: &mut [u64], terms: Terms) -> Reply
    ensures reply { result ≡ open_reply (opening store.old terms) }
    ensures store { store.new ≡ open_row store.old (opening store.old terms) }
{
    if store.len() < STORE_SIZE {
        return Err(Refusal::BadStore(store.len() as u64));
    }
    check_terms(terms)?;
    clear(store, terms);
    Ok(0)
}
