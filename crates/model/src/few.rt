// How much one command changes. Nothing is computed here: each contract is the statement.
ghost use Rattle.model.specs.Few.{FewChanges, OnTime, OnlyWhatIsMet, WatermarkAdds};

// A reading changes the visits that it meets, if they were closed, and what they become, if that is closed; no others.
pub fn only_what_is_met()
    ensures { OnlyWhatIsMet }
{}

// A reading retracts two visits at most and adds one at most.
pub fn few_changes()
    ensures { FewChanges }
{}

// A reading that is not behind the watermark changes nothing that is closed.
pub fn on_time()
    ensures { OnTime }
{}

// A watermark retracts nothing.
pub fn watermark_adds()
    ensures { WatermarkAdds }
{}
