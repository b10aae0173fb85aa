// The text of answers and of the ledger.
ghost use Rattle.command.specs.Outcomes.{outcome_of};
ghost use Rattle.feed.specs.Text.{changes_text, ledger_text, outcome_text};
ghost use Rattle.visit.specs.Text.{Puts};

use command::Answer;
use std::alloc::AllocError;
use visit::{Line, Visit};

// The visits, a line each behind a sign.
fn put_changes(text: &mut String, sign: &str, visits: &[Visit]) -> Result<(), AllocError>
    ensures { Puts result text.old (changes_text sign.now visits.now) text.new }
{
    for visit in visits {
        writeln!(text, "{sign} {visit}")?;
    }
    Ok(())
}

// The lines of an answer put behind the text. An error means want of memory; then a part may stand there.
#[tactic(auto, unfolding(crate::specs::Text::outcome_text))]
pub fn put_answer(text: &mut String, answer: &Answer) -> Result<(), AllocError>
    ensures { Puts result text.old (outcome_text (outcome_of answer.now)) text.new }
{
    match answer {
        Ok(changes) => {
            put_changes(text, "-", changes.retracted.as_slice())?;
            put_changes(text, "+", changes.added.as_slice())
        }
        Err(refusal) => writeln!(text, "{refusal}"),
    }
}

// The ledger's lines put behind the text. An error means want of memory; then a part may stand there.
#[tactic(auto, unfolding(crate::specs::Text::ledger_text))]
pub fn put_ledger(text: &mut String, lines: &[Line]) -> Result<(), AllocError>
    ensures { Puts result text.old (ledger_text lines.now) text.new }
{
    for line in lines {
        writeln!(text, "{line}")?;
    }
    Ok(())
}
