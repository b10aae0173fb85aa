// The theorems on the store that forgets. Each function carries one: its contract is the statement.
ghost use Rattle.model.specs.Kept.{LittleKept, NothingInVain};
ghost use Rattle.model.specs.Unseen.{BoundedUnseen, ForgettingUnseen, TotalsRight};

// The store gives the outcomes and the ledger of the reference, which forgets nothing.
pub fn forgetting_unseen()
    ensures { ForgettingUnseen }
{}

// So it is where terms and commands out of bounds are refused.
pub fn bounded_unseen()
    ensures { BoundedUnseen }
{}

// The ledger is in order, and has for each card and day the number and the sum of the visits.
pub fn totals_right()
    ensures { TotalsRight }
{}

// The store keeps the live visits and the readings that could come again, and no others.
pub fn little_kept()
    ensures { LittleKept }
{}

// What it keeps, it needs: each reading to refuse it again, each visit since it may still change.
pub fn nothing_in_vain()
    ensures { NothingInVain }
{}
