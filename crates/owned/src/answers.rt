// What a reply and the changes that stand in `out` come to.
ghost use Rattle.command.specs.Outcomes.{outcome_of};
ghost use Rattle.owned.specs.Replies.{Readable, outcome_from};
ghost use Rattle.rows.specs.Tables.{rows_seen};
ghost use Rattle.std.specs.Prelude.{◌≡◌, IfOk};

use command::{Answer, Changes, Reply};
use rows::out::ChangedRows;
use std::alloc::{AllocError, Global};

fn changes_of(heap: Global, changed: ChangedRows<'_>) -> Result<Changes, AllocError>
    ensures retracted { IfOk result (λ d. d.retracted.items ≡ rows_seen changed.entry.retracted) }
    ensures added { IfOk result (λ d. d.added.items ≡ rows_seen changed.entry.added) }
{
    Ok(Changes {
        retracted: changed.retracted.iter().collect(heap)?,
        added: changed.added.iter().collect(heap)?,
    })
}

// The visits that changed, or the refusal.
pub fn answer_of(heap: Global, reply: Reply, out: &[u64]) -> Result<Answer, AllocError>
    requires { Readable reply out.now }
    ensures { IfOk result (λ a. outcome_of a ≡ outcome_from reply out.now) }
{
    match reply {
        Ok(_) => Ok(Ok(changes_of(heap, ChangedRows::read(out))?)),
        Err(refusal) => Ok(Err(refusal)),
    }
}
