// One step of a walk along the visits of a table, by which a visit comes to its place among them.
ghost use Rattle.live.specs.Steps.{step_of};
ghost use Rattle.std.specs.Prelude.{◌≡◌};

use visit::{Ordered, Terms, Visit};

// Three outcomes, asked for in this order and matched where the walk is.
#[derive(Clone, Copy)]
pub enum Step {
    Take,
    Pass,
    Stop,
}

// A near visit is taken in, one before is passed, and at any other the place is found.
pub fn next_step(visit: Visit, row: Visit, terms: Terms) -> Step
    ensures { result ≡ step_of terms visit row }
{
    if visit.near(row, terms) {
        Step::Take
    } else if row.before(visit, terms) {
        Step::Pass
    } else {
        Step::Stop
    }
}
