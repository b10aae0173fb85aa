// Command files: gap, lateness and day length, then the commands. All numbers stand low byte first.
ghost use Rattle.std.specs.Prelude.{Some, ◌≡◌, ◌+◌, ◌<◌, ◌≤◌, true, length, drop, IfSome, if◌then◌else◌, MatchOption, MatchResult, OnSome};
ghost use Rattle.std.specs.Iterator.{item_count};
ghost use Rattle.std.specs.List.{flat_map};
ghost use Rattle.std.specs.Option.{option_map};
ghost use Rattle.feed.specs.Bytes.{PutsWhole, TakesFirst, number_at};
ghost use Rattle.feed.specs.Commands.{IsFront, StepsOn, bytes_left, commands_left};
ghost use Rattle.feed.specs.Files.{Lossless, RoundTrip, body, command_bytes, decoded, decoded_at, storable, terms_bytes, terms_in, terms_size, unknown_kind};
ghost use Rattle.feed.specs.Text.{encode_error_text};
ghost use Rattle.feed.specs.declared.files.EncodeError.TheVariants.{OutOfMemory, TooLarge};

use command::Command;
use std::alloc::AllocError;
use std::error::Error;
use std::fmt;
use std::num::TryFromIntError;
use visit::{Reading, Terms};

// The first byte of a command says its kind, as the format has it.
const READING: u8 = 0;

const WATERMARK: u8 = 1;

// How many bytes the terms take.
pub const TERMS_SIZE: usize = 24;

// Two functions: one over the width would copy into eight bytes, and ask that the width is at most that.
// The number in the first four bytes, and the bytes behind them.
fn word(bytes: &[u8]) -> Option<(u64, &[u8])>
    ensures { TakesFirst 4 (number_at 4 0 bytes.now) bytes.now result }
{
    let (number, rest) = bytes.split_first_chunk()?;
    Some((u32::from_le_bytes(*number).into(), rest))
}

// The number in the first eight bytes, and the bytes behind them.
fn long(bytes: &[u8]) -> Option<(u64, &[u8])>
    ensures { TakesFirst 8 (number_at 8 0 bytes.now) bytes.now result }
{
    let (number, rest) = bytes.split_first_chunk()?;
    Some((u64::from_le_bytes(*number), rest))
}

// The terms at the front of a file and the bytes behind them, unless it is too short for them.
#[tactic(auto, unfolding(crate::specs::Files::terms_in))]
pub fn read_terms(bytes: &[u8]) -> Option<(Terms, &[u8])>
    ensures value { option_map (λ p. p.0) result ≡ terms_in bytes.now }
    ensures rest { IfSome result (λ p. p.1.now ≡ body bytes.now) }
    ensures bound { OnSome result (terms_size ≤ length bytes.now) }
{
    let (gap, bytes) = long(bytes)?;
    let (lateness, bytes) = long(bytes)?;
    let (day, rest) = long(bytes)?;
    let terms = Terms { gap, lateness, day };
    Some((terms, rest))
}

// A reading behind its kind, and the bytes behind it.
fn reading(bytes: &[u8]) -> Option<(Reading, &[u8])>
    ensures { TakesFirst 20
        (record {
          card = number_at 4 0 bytes.now;
          serial = number_at 4 4 bytes.now;
          time = number_at 8 8 bytes.now;
          amount = number_at 4 16 bytes.now;
        })
        bytes.now result }
{
    let (card, bytes) = word(bytes)?;
    let (serial, bytes) = word(bytes)?;
    let (time, bytes) = long(bytes)?;
    let (amount, rest) = word(bytes)?;
    let reading = Reading {
        card,
        time,
        serial,
        amount,
    };
    Some((reading, rest))
}

// The command at the front, and the bytes behind it. None at the end of the bytes, at a command that
// ends early, and at an unknown kind.
#[tactic(auto, unfolding(crate::specs::Files::decoded))]
fn front(bytes: &[u8]) -> Option<(Command, &[u8])>
    ensures { MatchOption result (decoded bytes.now ≡ None) (λ p. IsFront bytes.now p.0 p.1.now) }
{
    let (kind, bytes) = bytes.split_first()?;
    match *kind {
        READING => {
            let (reading, rest) = reading(bytes)?;
            Some((Command::Reading(reading), rest))
        }
        WATERMARK => {
            let (time, rest) = long(bytes)?;
            Some((Command::Watermark(time), rest))
        }
        _ => None,
    }
}

// Whether no command begins at the front, however the bytes go on.
pub fn unknown_kind(bytes: &[u8]) -> bool
    ensures { result ≡ unknown_kind bytes.now }
{
    !matches!(bytes, [] | [READING | WATERMARK, ..])
}

// The command that begins at a byte, and where the next begins. None where `front` finds none.
#[tactic(auto, unfolding(crate::specs::Files::decoded))]
pub fn command_at(bytes: &[u8], at: usize) -> Option<(Command, usize)>
    ensures value { result ≡ decoded_at at bytes.now }
    ensures bound { IfSome result (λ d. (at < d.1) × (d.1 ≤ length bytes.now)) }
{
    let (command, rest) = front(bytes.get(at..)?)?;
    Some((command, bytes.len() - rest.len()))
}

// The commands behind the terms, one after the other, up to where decoding stops.
#[derive(Clone, Debug, Drop)]
pub struct Commands<'a> {
    rest: &'a [u8],
}

impl<'a> Commands<'a> {
    pub fn new(bytes: &'a [u8]) -> Commands<'a>
        ensures { bytes_left result ≡ bytes.now }
    {
        Commands { rest: bytes }
    }

    // How many bytes are left.
    pub fn unread(&self) -> usize
        ensures { result ≡ length (bytes_left self.now) }
    {
        self.rest.len()
    }
}

impl<'a> Iterator for Commands<'a> {
    type Item = Command;

    ghost next_gives = { StepsOn };

    ghost remaining = { item_count commands_left };

    #[tactic(auto, using(crate::proofs::Decoding::commands_next, crate::proofs::Decoding::unread_next, crate::proofs::Decoding::commands_end, crate::proofs::Decoding::unread_end))]
    fn next(&mut self) -> Option<Command> {
        let (command, rest) = front(self.rest)?;
        self.rest = rest;
        Some(command)
    }
}

// Why a command is not written: a card, serial or amount that four bytes do not hold, or want of memory.
#[derive(Clone, Copy, PartialEq, Eq, Debug)]
pub enum EncodeError {
    TooLarge,
    OutOfMemory,
}

impl fmt::Display for EncodeError {
    ghost output = { λ e. Some (encode_error_text e) };

    fn fmt<W: fmt::Write>(&self, f: &mut fmt::Formatter<W>) -> fmt::Result {
        f.write_str(match self {
            Self::TooLarge => "a number too large for its bytes",
            Self::OutOfMemory => "out of memory",
        })
    }
}

impl Error for EncodeError {}

// `From` by hand, here and below: contracts name the variant, and a derived `From` says nothing of it.
impl From<TryFromIntError> for EncodeError {
    ghost from_gives = { λ _ e. e ≡ TooLarge };

    fn from(_error: TryFromIntError) -> EncodeError {
        EncodeError::TooLarge
    }
}

impl From<AllocError> for EncodeError {
    ghost from_gives = { λ _ e. e ≡ OutOfMemory };

    fn from(_error: AllocError) -> EncodeError {
        EncodeError::OutOfMemory
    }
}

// All of the parts or, where memory runs out, none of them.
fn append(out: &mut Vec<u8>, parts: &[&[u8]]) -> Result<(), AllocError>
    ensures { PutsWhole result out.old (flat_map (λ p. p.now) parts.now) out.new }
{
    let start = out.len();
    for part in parts {
        // Not `?`: what was written is taken back first.
        if let Err(error) = out.extend_from_slice(part) {
            out.truncate(start);
            return Err(error);
        }
    }
    Ok(())
}

// An error leaves `out` as it was.
#[tactic(auto, using(crate::proofs::Rows::long_bytes))]
pub fn put_terms(out: &mut Vec<u8>, terms: Terms) -> Result<(), AllocError>
    ensures { PutsWhole result out.old (terms_bytes terms) out.new }
{
    append(
        out,
        &[
            &terms.gap.to_le_bytes(),
            &terms.lateness.to_le_bytes(),
            &terms.day.to_le_bytes(),
        ],
    )
}

#[tactic(auto, using(crate::proofs::Rows::word_bytes, crate::proofs::Rows::long_bytes), unfolding(crate::specs::Files::storable))]
fn put_reading(out: &mut Vec<u8>, reading: Reading) -> Result<(), EncodeError>
    ensures items { PutsWhole result out.old (command_bytes (Command.Reading reading)) out.new }
    ensures cases { MatchResult result (λ _. storable (Command.Reading reading) ≡ true) (λ e. e ≡ (if storable (Command.Reading reading) then EncodeError.OutOfMemory else EncodeError.TooLarge)) }
{
    let card = u32::try_from(reading.card)?;
    let serial = u32::try_from(reading.serial)?;
    let amount = u32::try_from(reading.amount)?;
    append(
        out,
        &[
            &[READING],
            &card.to_le_bytes(),
            &serial.to_le_bytes(),
            &reading.time.to_le_bytes(),
            &amount.to_le_bytes(),
        ],
    )?;
    Ok(())
}

// An error leaves `out` as it was.
#[tactic(auto, using(crate::proofs::Rows::long_bytes), unfolding(crate::specs::Files::storable))]
pub fn put_command(out: &mut Vec<u8>, command: Command) -> Result<(), EncodeError>
    ensures items { PutsWhole result out.old (command_bytes command) out.new }
    ensures cases { MatchResult result (λ _. storable command ≡ true) (λ e. e ≡ (if storable command then EncodeError.OutOfMemory else EncodeError.TooLarge)) }
{
    match command {
        Command::Reading(reading) => put_reading(out, reading),
        Command::Watermark(time) => {
            append(out, &[&[WATERMARK], &time.to_le_bytes()])?;
            Ok(())
        }
    }
}

// What is written is read again.
#[tactic(auto, using(crate::proofs::Encoding::round_trip))]
pub fn round_trip()
    ensures { RoundTrip }
{}

// Of bytes that are read nothing is lost: their commands, written again, are those bytes.
#[tactic(auto, using(crate::proofs::Exact::lossless))]
pub fn lossless()
    ensures { Lossless }
{}
