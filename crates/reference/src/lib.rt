// The reference: keeps every reading in a Vec and works everything out anew at each command.
#![tactic(auto)]

mod ledger;
mod readings;
mod visits;

ghost use Rattle.command.specs.Outcomes.{outcome_of};
ghost use Rattle.model.specs.Reference.{closed_of, empty, ledger_of, outcome_by, state_by};
ghost use Rattle.model.specs.Sessions.{contains};
ghost use Rattle.std.specs.Prelude.{◌≡◌, ◌*◌, ◌^◌, ◌<◌, ◌≤◌, ◌↔◌, IfOk, IsOk, IsTrue, Ok, vec_len, OnErr, OnOk, sum_by};
ghost use Rattle.std.specs.Result.{result_and};

use command::{Answer, Command, Refusal, check_terms};
use readings::inserted;
use std::alloc::{AllocError, Global};
use visit::{Clock, Line, Reading, Terms, Visit};
use visits::changes;

// Beyond this many readings a sum might not fit in 64 bits.
const MOST_READINGS: usize = (1 << 32) - 1;

// Every reading taken in, in order. They are few and have small amounts, so that every sum fits in 64 bits.
#[derive(Debug, Drop)]
pub struct Reference {
    clock: Clock,
    readings: Vec<Reading>,
    ghost few: { vec_len readings < 2 ^ 32 },
    ghost small: { sum_by (λ e. e.amount) readings.items ≤ vec_len readings * (2 ^ 32) },
}

impl Reference {
    ghost use Rattle.reference.specs.State.{model_of, most_readings, plan_of, terms_of};

    pub fn new(heap: Global, terms: Terms) -> Reference
        ensures state { model_of result ≡ empty }
        ensures terms { terms_of result ≡ terms }
    {
        Reference {
            clock: Clock {
                terms,
                watermark: 0,
            },
            readings: Vec::new(heap),
        }
    }

    // A refusal or want of memory leaves the state as it was.
    pub fn apply(&mut self, heap: Global, command: Command) -> Result<Answer, AllocError>
        ensures answer { IfOk result (λ a. outcome_of a ≡ outcome_by (terms_of self.old) (model_of self.old) (plan_of self.old command)) }
        ensures state { OnOk result (model_of self.new ≡ state_by (model_of self.old) (plan_of self.old command)) }
        ensures same { OnErr result (model_of self.new ≡ model_of self.old) }
        ensures terms { terms_of self.new ≡ terms_of self.old }
    {
        // Not `?`: a refusal is an answer, and only want of memory is an error (docs/DECISIONS.md).
        if let Err(refusal) = self.check(command) {
            return Ok(Err(refusal));
        }
        let next = self.next(heap, command)?;
        let before = self.closed(heap)?;
        let after = next.closed(heap)?;
        let changes = changes(heap, &before, &after)?;
        *self = next;
        Ok(Ok(changes))
    }

    // The closed visits.
    pub fn closed(&self, heap: Global) -> Result<Vec<Visit>, AllocError>
        ensures { IfOk result (λ v. v.items ≡ closed_of (terms_of self.now) (model_of self.now)) }
    {
        let clock = self.clock;
        let mut visits = visits::visits(heap, clock.terms, &self.readings)?;
        visits.retain(|visit| visit.closed(clock));
        // Else each list of closed visits would keep the room of all visits.
        visits.shrink_to_fit();
        Ok(visits)
    }

    pub fn ledger(&self, heap: Global) -> Result<Vec<Line>, AllocError>
        ensures { IfOk result (λ v. v.items ≡ ledger_of (terms_of self.now) (model_of self.now)) }
    {
        let closed = self.closed(heap)?;
        ledger::totals(heap, self.clock.terms, &closed)
    }

    // Whether one reading more may be taken in.
    fn has_room(&self) -> bool
        ensures { IsTrue result ↔ (vec_len self.now.readings < most_readings) }
    {
        self.readings.len() < MOST_READINGS
    }

    // Whether the reading was taken in before.
    fn has(&self, reading: Reading) -> bool
        ensures { result ≡ contains (terms_of self.now) reading (model_of self.now).readings }
    {
        self.readings
            .iter()
            .any(|other| reading.same(*other, self.clock.terms))
    }

    // Whether the command may be done, or why not.
    fn check(&self, command: Command) -> Result<(), Refusal>
        ensures { result ≡ result_and (plan_of self.now command) (Ok tt) }
    {
        check_terms(self.clock.terms)?;
        command.check()?;
        match command {
            Command::Reading(e) if e.too_late(self.clock) => Err(Refusal::TooLate(e.time)),
            Command::Reading(e) if self.has(e) => Err(Refusal::Duplicate(e.time)),
            Command::Watermark(m) if m < self.clock.watermark => Err(Refusal::Backwards(m)),
            _ => Ok(()),
        }
    }

    // The state after a command that may be done. One reading too many fails as for want of memory.
    fn next(&self, heap: Global, command: Command) -> Result<Reference, AllocError>
        requires { IsOk (plan_of self.now command) }
        ensures terms { IfOk result (λ next. terms_of next ≡ terms_of self.now) }
        ensures state { IfOk result (λ next. plan_of self.now command ≡ Ok (model_of next)) }
    {
        match command {
            Command::Reading(e) => {
                if !self.has_room() {
                    return Err(AllocError);
                }
                let readings = inserted(heap, &self.readings, e, self.clock.terms)?;
                Ok(Reference {
                    clock: self.clock,
                    readings,
                })
            }
            Command::Watermark(watermark) => {
                let readings = self.readings.to_vec(heap)?;
                let clock = Clock {
                    watermark,
                    ..self.clock
                };
                Ok(Reference { clock, readings })
            }
        }
    }
}
