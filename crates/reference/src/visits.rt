// Visits of readings in order, and how two lists of visits differ.
ghost use Rattle.std.specs.Prelude.{◌≡◌, ◌+◌, ◌^◌, ◌<◌, reverse, IfOk, OnOk};
ghost use Rattle.command.specs.Outcomes.{outcome_of};
ghost use Rattle.model.specs.Sessions.{changes as Changed, difference as Difference, prepend as Prepend, visits as Visits};
ghost use Rattle.visit.specs.Sums.{SumsFit, amounts};
ghost use Rattle.visit.specs.declared.Terms.{Terms};

use command::Changes;
use std::alloc::{AllocError, Global};
use visit::{Reading, Terms, Visit};

// The list is held backwards, its front visit last, so that a reading before all others costs no shift.
pub fn prepend(backwards: &mut Vec<Visit>, reading: Reading, terms: Terms) -> Result<(), AllocError>
    requires { SumsFit (reverse backwards.old.items) 1 reading.amount }
    ensures { OnOk result (reverse backwards.new.items ≡ Prepend terms reading (reverse backwards.old.items)) }
{
    match backwards.last_mut() {
        Some(front) if reading.joins(*front, terms) => *front = front.grown(reading),
        _ => backwards.push(reading.single())?,
    }
    Ok(())
}

// From the last reading to the first.
pub fn visits(heap: Global, terms: Terms, readings: &[Reading]) -> Result<Vec<Visit>, AllocError>
    requires { amounts readings.now < 2 ^ 64 }
    ensures { IfOk result (λ v. v.items ≡ Visits terms readings.now) }
{
    let mut backwards = Vec::new(heap);
    for reading in readings.iter().rev() {
        prepend(&mut backwards, *reading, terms)?;
    }
    backwards.reverse();
    Ok(backwards)
}

// The visits that are not among others, in order.
fn difference(heap: Global, visits: &[Visit], from: &[Visit]) -> Result<Vec<Visit>, AllocError>
    ensures { (t : Terms) → IfOk result (λ v. v.items ≡ Difference t visits.now from.now) }
{
    let is_missing = |visit: &Visit| !from.contains(visit);
    visits.iter().copied().filter(is_missing).collect(heap)
}

// What was closed before and is not now, and the reverse.
pub fn changes(heap: Global, before: &[Visit], after: &[Visit]) -> Result<Changes, AllocError>
    ensures { (t : Terms) → IfOk result (λ d. outcome_of (Ok d) ≡ Changed t before.now after.now) }
{
    Ok(Changes {
        retracted: difference(heap, before, after)?,
        added: difference(heap, after, before)?,
    })
}
