// The rows of a table, one after the other.
ghost use Rattle.std.specs.Prelude.{◌≡◌, ◌^◌, ◌<◌, length};

use crate::row::Row;
use crate::table::Rows;

#[derive(Drop)]
pub struct RowIter<'a, R: Row> {
    pub rest: Rows<'a, R>,
}

impl<R: Row> Iterator for RowIter<'_, R> {
    ghost use Rattle.std.specs.Iterator.{item_count, YieldsFirst};
    ghost use Rattle.rows.specs.Tables.{rows_left};

    type Item = R;

    ghost next_gives = { YieldsFirst rows_left };

    ghost remaining = { item_count rows_left };

    fn next(&mut self) -> Option<R> {
        let (row, rest) = self.rest.split_first()?;
        self.rest = rest;
        Some(row)
    }
}

impl<'a, R: Row> IntoIterator for Rows<'a, R> {
    ghost use Rattle.rows.specs.Tables.{RowsInOrder, rows_left, rows_seen};

    type Item = R;

    type IntoIter = RowIter<'a, R>;

    ghost into_iter_gives = { λ s r. (rows_left r ≡ rows_seen s) × (length (rows_left r) ≡ s.len) × (length (rows_left r) < 2 ^ 64) × RowsInOrder R.Row };

    fn into_iter(self) -> RowIter<'a, R> {
        self.iter()
    }
}

impl<'a, R: Row> Rows<'a, R> {
    ghost use Rattle.rows.specs.Tables.{RowsInOrder, rows_left, rows_seen};

    pub fn iter(self) -> RowIter<'a, R>
        ensures rest { rows_left result ≡ rows_seen self.entry }
        ensures len { length (rows_left result) ≡ self.entry.len }
        ensures bound { length (rows_left result) < 2 ^ 64 }
        ensures runs { RowsInOrder R.Row }
    {
        RowIter { rest: self }
    }
}
