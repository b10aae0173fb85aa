// Days of commands as text for people. The first line with words is `terms GAP LATENESS DAY`, every further one
// `reading CARD TIME SERIAL AMOUNT` or `watermark TIME`. `#` begins a comment, and a line without words is passed over.
// Numbers are decimal digits; card, serial and amount are below 2^32, all others below 2^64.
#![tactic(auto)]

ghost use Rattle.days.specs.declared.ParseError.TheVariants.{Bad, NoMemory};
ghost use Rattle.days.specs.Writing.{bad_line_text, parse_error_text, reason_text};
ghost use Rattle.std.specs.Prelude.{◌≡◌, Some};

use command::Command;
use std::alloc::{AllocError, AllocFailed};
use std::error::Error;
use std::fmt;
use visit::Terms;

mod reads;
mod words;
mod writes;

pub use reads::parse;
pub use writes::{put_command, put_terms};

#[derive(Drop)]
pub struct Day {
    pub terms: Terms,
    pub commands: Vec<Command>,
}

// Why a line is refused.
#[derive(Clone, Copy, PartialEq, Eq, Debug)]
pub enum Reason {
    NoTerms,
    NoCommand,
    WrongCount,
    NotNumber,
    TooLarge,
}

// Lines are counted from 1, blank ones and comments too. A day without terms is refused at the number of its
// lines plus 1; a newline at the end of the text begins no further line.
#[derive(Clone, Copy, PartialEq, Eq, Debug)]
pub struct BadLine {
    pub line: u64,
    pub reason: Reason,
}

#[derive(Clone, Copy, PartialEq, Eq, Debug)]
pub enum ParseError {
    Bad(BadLine),
    NoMemory,
}

impl fmt::Display for Reason {
    ghost output = { λ r. Some (reason_text r) };

    fn fmt<W: fmt::Write>(&self, f: &mut fmt::Formatter<W>) -> fmt::Result {
        f.write_str(match self {
            Reason::NoTerms => "the first line must be terms GAP LATENESS DAY",
            Reason::NoCommand => "expected reading or watermark",
            Reason::WrongCount => "wrong number of words",
            Reason::NotNumber => "not a number",
            Reason::TooLarge => "number too large",
        })
    }
}

impl fmt::Display for BadLine {
    ghost output = { λ b. Some (bad_line_text b) };

    fn fmt<W: fmt::Write>(&self, f: &mut fmt::Formatter<W>) -> fmt::Result {
        write!(f, "line {}: {}", self.line, self.reason)
    }
}

impl fmt::Display for ParseError {
    ghost output = { λ e. Some (parse_error_text e) };

    fn fmt<W: fmt::Write>(&self, f: &mut fmt::Formatter<W>) -> fmt::Result {
        match self {
            ParseError::Bad(line) => write!(f, "{line}"),
            ParseError::NoMemory => f.write_str("out of memory"),
        }
    }
}

impl Error for ParseError {}

// `From` by hand, here and below: contracts name the variant, and a derived `From` says nothing of it.
impl From<BadLine> for ParseError {
    ghost from_gives = { λ e r. r ≡ Bad e };

    fn from(e: BadLine) -> ParseError {
        ParseError::Bad(e)
    }
}

impl From<AllocError> for ParseError {
    ghost from_gives = { λ _ r. r ≡ NoMemory };

    fn from(_e: AllocError) -> ParseError {
        ParseError::NoMemory
    }
}

impl<T: Drop> From<AllocFailed<T>> for ParseError {
    ghost from_gives = { λ _ r. r ≡ NoMemory };

    fn from(_e: AllocFailed<T>) -> ParseError {
        ParseError::NoMemory
    }
}

#[cfg(test)]
mod tests {
    use super::*;
    use std::test::Fail;

    // What each row is, its text, and the line and the reason that it is refused with.
    const ROWS: [(&str, &str, u64, Reason); 14] = [
        ("no text", "", 1, Reason::NoTerms),
        ("a newline ends its line", "# a\n\n", 3, Reason::NoTerms),
        (
            "the last line may lack its newline",
            "# a\n#",
            3,
            Reason::NoTerms,
        ),
        (
            "a command before the terms",
            "\nwatermark 1\n",
            2,
            Reason::NoTerms,
        ),
        (
            "terms cut short by a comment",
            "terms 1 2 # 3",
            1,
            Reason::WrongCount,
        ),
        (
            "the number of words comes before the numbers",
            "terms x 2",
            1,
            Reason::WrongCount,
        ),
        (
            "terms twice",
            "terms 1 2 3\nterms 1 2 3\n",
            2,
            Reason::NoCommand,
        ),
        (
            "a word that only begins as reading",
            "terms 1 2 3\nreadings 1 2 3 4",
            2,
            Reason::NoCommand,
        ),
        (
            "one word too many",
            "terms 1 2 3\r\n\r\nwatermark 1 2\r\n",
            3,
            Reason::WrongCount,
        ),
        ("a sign", "terms 1 2 3\nwatermark +1", 2, Reason::NotNumber),
        (
            "digits and a letter, too long",
            "terms 1 2 3\nwatermark 99999999999999999999x",
            2,
            Reason::NotNumber,
        ),
        (
            "a time of 2^64",
            "terms 1 2 3\nwatermark 18446744073709551616",
            2,
            Reason::TooLarge,
        ),
        (
            "a card of 2^32",
            "terms 1 2 3\nreading 4294967296 x 0 0",
            2,
            Reason::TooLarge,
        ),
        (
            "the first bad line",
            "terms 1 2 3\nwatermark\nnone",
            2,
            Reason::WrongCount,
        ),
    ];

    #[test]
    fn bad_lines(rt: HostRuntime) -> Result<(), Fail> {
        for (what, text, line, reason) in ROWS {
            match parse(rt.alloc(), text.as_bytes()) {
                Err(e) => assert_eq!(rt; e, ParseError::Bad(BadLine { line, reason }), "{}", what),
                Ok(_) => return Err(Fail::new(what)),
            }
        }
        Ok(())
    }

    // The largest numbers, leading zeros, tabs and comments are fine.
    #[test]
    fn good_day(rt: HostRuntime) -> Result<(), Fail> {
        let text =
            "# day\n\tterms 1 002 18446744073709551615 # c\n\nreading 4294967295 5 4294967295 0\nwatermark 00\n";
        let day = parse(rt.alloc(), text.as_bytes())?;
        assert_eq!(rt;
            day.terms,
            Terms {
                gap: 1,
                lateness: 2,
                day: u64::MAX,
            }
        );
        let mut out = String::new(rt.alloc());
        for command in day.commands.iter() {
            put_command(&mut out, *command)?;
        }
        assert_eq!(rt;
            out.as_str(),
            "reading 4294967295 5 4294967295 0\nwatermark 0\n"
        );
        Ok(())
    }
}
