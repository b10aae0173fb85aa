// Lines read as terms and commands, and the lines of a day.
ghost use Rattle.std.specs.Prelude.{◌≡◌, map};
ghost use Rattle.days.specs.Outcomes.{Parsed};
ghost use Rattle.days.specs.Parsing.{parsed_command, parsed_terms};
ghost use Rattle.days.specs.RoundTrip.{ParsesBack};

use super::words::{number, words};
use super::{BadLine, Day, ParseError, Reason};
use command::{Command, WORD_LIMIT};
use std::alloc::Global;
use visit::{Reading, Terms};

// The first word of a line says what it is.
const TERMS: &[u8] = b"terms";

const READING: &[u8] = b"reading";

const WATERMARK: &[u8] = b"watermark";

fn terms_in(words: &[&[u8]]) -> Result<Terms, Reason>
    ensures { result ≡ parsed_terms (map (λ word. word.now) words.now) }
{
    match words {
        [key, gap, lateness, day] if *key == TERMS => Ok(Terms {
            gap: number(gap, u64::MAX)?,
            lateness: number(lateness, u64::MAX)?,
            day: number(day, u64::MAX)?,
        }),
        [key, ..] if *key == TERMS => Err(Reason::WrongCount),
        _ => Err(Reason::NoTerms),
    }
}

fn command_in(words: &[&[u8]]) -> Result<Command, Reason>
    ensures { result ≡ parsed_command (map (λ word. word.now) words.now) }
{
    match words {
        [key, card, time, serial, amount] if *key == READING => Ok(Command::Reading(Reading {
            card: number(card, WORD_LIMIT - 1)?,
            time: number(time, u64::MAX)?,
            serial: number(serial, WORD_LIMIT - 1)?,
            amount: number(amount, WORD_LIMIT - 1)?,
        })),
        [key, time] if *key == WATERMARK => Ok(Command::Watermark(number(time, u64::MAX)?)),
        [key, ..] if *key == READING || *key == WATERMARK => Err(Reason::WrongCount),
        _ => Err(Reason::NoCommand),
    }
}

// `back` is the theorem that a written day, with every number below its limit, is read back as that day.
#[tactic(auto, using(crate::proofs::RoundTrip::parses_back))]
pub fn parse(heap: Global, text: &[u8]) -> Result<Day, ParseError>
    ensures parsed { Parsed text.now result }
    ensures back { ParsesBack }
{
    let mut terms = None;
    let mut commands = Vec::new(heap);
    // Counted by hand: the number goes into the error, also behind the last line.
    let mut line = 1;
    for content in text.split_inclusive(|byte| *byte == b'\n') {
        let words = words(heap, content)?;
        if !words.is_empty() {
            let bad = |reason| BadLine { line, reason };
            match terms {
                None => terms = Some(terms_in(&words).map_err(bad)?),
                Some(_) => commands.push(command_in(&words).map_err(bad)?)?,
            }
        }
        line += 1;
    }
    let terms = terms.ok_or(BadLine {
        line,
        reason: Reason::NoTerms,
    })?;
    Ok(Day { terms, commands })
}
