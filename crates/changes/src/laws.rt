// What the functions of this crate rest on. Nothing is computed here: each contract is the statement.
ghost use Rattle.changes.specs.Changed.{ByComparing, OnlyNewlyClosed};
ghost use Rattle.changes.specs.Room.{OutSuffices};

// A watermark that rises retracts nothing and adds what it closes.
#[tactic(auto, using(crate::proofs::Differences::only_newly_closed))]
pub fn only_newly_closed()
    ensures { OnlyNewlyClosed }
{}

// What a merging changes is found by comparing what is left, what was taken in and what it became.
#[tactic(auto, using(crate::proofs::Merging::by_comparing))]
pub fn by_comparing()
    ensures { ByComparing }
{}

// Whatever the live visits are, `out` has room for what a command changes.
pub fn out_suffices()
    ensures { OutSuffices }
{}
