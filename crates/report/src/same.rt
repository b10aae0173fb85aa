// Theorems on the text by a store and the text by recomputing. A function here carries a theorem: its contract is the
// statement, and nothing is computed.
ghost use Rattle.report.specs.SameText.{SameBeginning, SameText, SameTextHeard};

// Where no command is refused with 1 or 7, it is the same text.
pub fn same_text()
    ensures { SameText }
{}

// Without the commands that are so refused, it always is.
pub fn same_text_heard()
    ensures { SameTextHeard }
{}

// Up to the first command that is so refused, both print the same.
pub fn same_beginning()
    ensures { SameBeginning }
{}
