// Cells of a slice cleared and moved, of whatever rows they are. Over places in the slice: the memory is lent, and cells are moved over others.
ghost use Rattle.std.specs.Prelude.{◌≡◌, ◌+◌, ◌≤◌, length};
ghost use Rattle.rows.specs.Cells.{cleared, closed_up, opened};

pub(crate) fn clear(table: &mut [u64], from: usize, to: usize)
    requires order { from ≤ to }
    requires within { to ≤ length table.old }
    ensures { table.new ≡ cleared from to table.old }
{
    table[from..to].fill(0);
}

// The cells that those left behind are as they were.
pub(crate) fn open(table: &mut [u64], at: usize, end: usize, w: usize)
    requires order { at ≤ end }
    requires within { end + w ≤ length table.old }
    ensures { table.new ≡ opened at end w table.old }
{
    table.copy_within(at..end, at + w);
}

// What the last cells left is cleared.
pub(crate) fn close(table: &mut [u64], at: usize, end: usize, w: usize)
    requires order { at + w ≤ end }
    requires within { end ≤ length table.old }
    ensures { table.new ≡ closed_up at end w table.old }
{
    table.copy_within(at + w..end, at);
    clear(table, end - w, end);
}
