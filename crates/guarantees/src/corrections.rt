// What calls say has changed, by the numbers that they write.
ghost use Rattle.guarantees.specs.Few.{RowFewChanges, RowOnTime, RowWatermarkAdds};
ghost use Rattle.guarantees.specs.Following.{ReplyCounts, RowChangesAddUp};

// A command that is done answers how many visits it wrote.
pub fn reply_counts()
    ensures { ReplyCounts }
{}

// One who follows only what is written has the closed visits.
pub fn changes_add_up()
    ensures { RowChangesAddUp }
{}

// A reading writes the visits that it meets and what they become, so three at most.
pub fn few_changes()
    ensures { RowFewChanges }
{}

// A reading that is not behind the watermark writes none.
pub fn on_time()
    ensures { RowOnTime }
{}

// A watermark retracts nothing.
pub fn watermark_adds()
    ensures { RowWatermarkAdds }
{}
