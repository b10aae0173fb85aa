// What calls leave in the row.
ghost use Rattle.guarantees.specs.AnyTime.{AnyOrderSameRow, RowStands};
ghost use Rattle.guarantees.specs.Needed.{RowNothingInVain};
ghost use Rattle.guarantees.specs.Taken.{RowVisitsRight};

// The row holds what stands for the reference, and behind it only 0.
pub fn row_stands()
    ensures { RowStands }
{}

// What it holds and what was written are the visits that the readings of the calls that were done make.
pub fn visits_right()
    ensures { RowVisitsRight }
{}

// In whatever order readings come, the same ones leave the same row.
pub fn any_order_same_row()
    ensures { AnyOrderSameRow }
{}

// Each live visit may still change, and each kept reading, coming again, is refused.
pub fn nothing_in_vain()
    ensures { RowNothingInVain }
{}
