// Rows written into a slice, which is a part of a table or of the row of changes.
ghost use Rattle.std.specs.Prelude.{◌≡◌, ◌+◌, ◌*◌, ◌≤◌, ◌++◌, length, take, drop};
ghost use Rattle.rows.specs.Rows.{cells_of};
ghost use Rattle.std.specs.Iterator.{IsFinite};
ghost use Rattle.std.specs.Iterator.Runs.{EachRunFrom, WholeRun};

use crate::row::Row;

pub(crate) fn put<R: Row>(table: &mut [u64], i: usize, row: R)
    requires { i * R.WIDTH + R.WIDTH ≤ length table.old }
    ensures { table.new ≡ take (i * R.WIDTH) table.old ++ (R.cells row ++ drop (i * R.WIDTH + R.WIDTH) table.old) }
{
    let w = R::WIDTH;
    let start = i * w;
    row.write(&mut table[start..start + w]);
}

// Rows written one behind the other, from row `at` on.
pub(crate) fn put_all<R: Row>(table: &mut [u64], at: usize, rows: &[R])
    requires { (at + length rows.now) * R.WIDTH ≤ length table.old }
    ensures { table.new ≡ take (at * R.WIDTH) table.old ++ (cells_of R.cells rows.now ++ drop ((at + length rows.now) * R.WIDTH) table.old) }
{
    let w = R::WIDTH;
    put_rows(&mut table[at * w..], rows.iter().copied());
}

// The rows that an iterator gives written one behind the other, from the front on: how many. It is counted by hand, since the count is the answer. Room is asked for, since there is no table yet.
pub fn put_rows<R: Row, I: Iterator<Item = R>>(target: &mut [u64], rows: I) -> usize
    requires can { I.can_next rows }
    requires finite { IsFinite (I.remaining rows) }
    requires room { EachRunFrom I.next_gives rows (λ p. p.len * R.WIDTH ≤ length target.old) }
    ensures { WholeRun I.next_gives rows (λ p. (result ≡ p.len) × (target.new ≡ cells_of R.cells p.items ++ drop (result * R.WIDTH) target.old)) }
{
    let mut count = 0;
    for row in rows {
        put(target, count, row);
        count += 1;
    }
    count
}
