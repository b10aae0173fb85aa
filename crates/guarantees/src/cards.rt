// What holds of some cards beside others.
ghost use Rattle.guarantees.specs.Cards.{RowCardsApart};

// The calls of some cards and the watermarks, made alone, say and leave of these cards what they do among all calls.
pub fn cards_apart()
    ensures { RowCardsApart }
{}
