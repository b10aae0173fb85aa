// Commands, and what is answered to them: changes of the closed visits, or a refusal with its number and place.
#![tactic(auto)]

ghost use Rattle.command.specs.Bounds.{below, command_fault, terms_fault, unless};
ghost use Rattle.command.specs.Numbers.{number as Number, place as Place, reply_number, reply_value};
ghost use Rattle.std.specs.Prelude.{◌≡◌};

pub mod cells;
mod text;

pub use visit::TIME_LIMIT;
use visit::{Reading, Terms, Visit};

// Cards, serials and amounts are below this.
pub const WORD_LIMIT: u64 = 1 << 32;

#[derive(Clone, Copy, PartialEq, Eq, Debug)]
pub enum Command {
    Reading(Reading),
    Watermark(u64),
}

// Why a command is not done. Each case holds its place: an index into the caller's row, which is printed and never chosen by.
#[derive(Clone, Copy, PartialEq, Eq, Debug)]
pub enum Refusal {
    BadStore(u64),
    BadTerms(u64),
    BadCommand(u64),
    TooLate(u64),
    Duplicate(u64),
    Backwards(u64),
    Full(u64),
    ShortOut(u64),
}

// How many visits changed, or why none did.
pub type Reply = Result<u64, Refusal>;

// Visits that are closed no longer, and visits that are closed now, each in order.
#[derive(Debug, Drop)]
pub struct Changes {
    pub retracted: Vec<Visit>,
    pub added: Vec<Visit>,
}

// What changed, or why nothing did.
pub type Answer = Result<Changes, Refusal>;

// Refused for the first of gap, lateness and day length that is out of its bounds.
pub fn check_terms(terms: Terms) -> Result<(), Refusal>
    ensures { result ≡ unless (terms_fault terms) tt }
{
    if terms.gap >= TIME_LIMIT {
        return Err(Refusal::BadTerms(0));
    }
    if terms.lateness >= TIME_LIMIT {
        return Err(Refusal::BadTerms(1));
    }
    if terms.day == 0 {
        return Err(Refusal::BadTerms(2));
    }
    Ok(())
}

fn check_below(number: u64, limit: u64, place: u64) -> Result<(), Refusal>
    ensures { result ≡ below number limit place }
{
    if number < limit {
        Ok(())
    } else {
        Err(Refusal::BadCommand(place))
    }
}

impl Command {
    // Refused for the first of the command's numbers that is out of its bounds.
    pub fn check(self) -> Result<(), Refusal>
        ensures { result ≡ unless (command_fault self) tt }
    {
        match self {
            Command::Reading(e) => {
                check_below(e.card, WORD_LIMIT, 1)?;
                check_below(e.time, TIME_LIMIT, 2)?;
                check_below(e.serial, WORD_LIMIT, 3)?;
                check_below(e.amount, WORD_LIMIT, 4)
            }
            Command::Watermark(m) => check_below(m, TIME_LIMIT, 1),
        }
    }
}

// A match each: a derive gives neither the number of a case nor what it holds.
impl Refusal {
    pub fn number(self) -> u64
        ensures { result ≡ Number self }
    {
        match self {
            Refusal::BadStore(_) => 1,
            Refusal::BadTerms(_) => 2,
            Refusal::BadCommand(_) => 3,
            Refusal::TooLate(_) => 4,
            Refusal::Duplicate(_) => 5,
            Refusal::Backwards(_) => 6,
            Refusal::Full(_) => 7,
            Refusal::ShortOut(_) => 8,
        }
    }

    pub fn place(self) -> u64
        ensures { result ≡ Place self }
    {
        match self {
            Refusal::BadStore(at)
            | Refusal::BadTerms(at)
            | Refusal::BadCommand(at)
            | Refusal::TooLate(at)
            | Refusal::Duplicate(at)
            | Refusal::Backwards(at)
            | Refusal::Full(at)
            | Refusal::ShortOut(at) => at,
        }
    }
}

// 0 for a command that was done.
pub fn reply_number(reply: Reply) -> u64
    ensures { result ≡ reply_number reply }
{
    reply.err().map_or(0, |refusal| refusal.number())
}

// How many visits changed, or the refusal's place.
pub fn reply_value(reply: Reply) -> u64
    ensures { result ≡ reply_value reply }
{
    reply.unwrap_or_else(|refusal| refusal.place())
}
