// What holds of refusals on any row.
ghost use Rattle.guarantees.specs.Refusals.{RefusalsChangeNothing, TooLateAlone};

// A refusal changes no number.
pub fn refusals_change_nothing()
    ensures { RefusalsChangeNothing }
{}

// Whether a reading is too late depends on terms and watermark alone.
pub fn too_late_alone()
    ensures { TooLateAlone }
{}
