// Theorems about visits and what changes among them: a function's contract is the statement.
ghost use Rattle.model.specs.AddsUp.{ChangesAddUp};
ghost use Rattle.model.specs.Cards.{CardsApart};
ghost use Rattle.model.specs.Order.{AnyOrder};
ghost use Rattle.model.specs.Right.{VisitsRight};
ghost use Rattle.model.specs.WorkedDay.{BoundaryDay, WorkedDay};

// A worked day comes out as its table says.
pub fn worked_day()
    ensures { WorkedDay }
{}

// So does a day that goes along every boundary.
pub fn boundary_day()
    ensures { BoundaryDay }
{}

// Cards have nothing to do with each other.
pub fn cards_apart()
    ensures { CardsApart }
{}

// The order in which readings come does not matter.
pub fn any_order()
    ensures { AnyOrder }
{}

// Changes add up to the closed visits.
pub fn changes_add_up()
    ensures { ChangesAddUp }
{}

// Visits are what their readings make.
pub fn visits_right()
    ensures { VisitsRight }
{}
