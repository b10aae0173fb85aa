// The worked day, row by row: what each command prints, and the ledger at the end. And the same of a file that lies in memory,
// whole or cut, from sources that are slow, or fail, and in a lent row.
ghost use Rattle.std.specs.Prelude.{◌≤◌, length};
ghost use Rattle.store.specs.Layout.{store_size};

use crate::named::DAYS;
use command::{Answer, Command};
use feed::files::read_terms;
use feed::text::{put_answer, put_ledger};
use owned::{answer, answer_sound};
use reference::Reference;
use std::alloc::{AllocError, Global};
use std::io;
use std::io::{ErrorKind, Read};
use std::test::Fail;
use store::capacity::{FULL, SMALL};
use store::layout::{OUT_SIZE, STORE_SIZE};
use store::opening::clear;
use visit::{Reading, Terms};

const fn reading(card: u64, time: u64, serial: u64, amount: u64) -> Command {
    Command::Reading(Reading {
        card,
        time,
        serial,
        amount,
    })
}

#[test]
fn worked_day(rt: HostRuntime) -> Result<(), Fail> {
    let heap = rt.alloc();
    let rows = [
        (reading(1, 5, 0, 2), ""),
        (reading(1, 12, 0, 3), ""),
        (Command::Watermark(40), "+ 1 5 12 2 5\n"),
        (reading(1, 20, 0, 1), "- 1 5 12 2 5\n+ 1 5 20 3 6\n"),
        (reading(1, 33, 0, 4), ""),
        (reading(1, 27, 0, 5), "- 1 5 20 3 6\n"),
        (Command::Watermark(44), "+ 1 5 33 5 15\n"),
        (reading(1, 9, 0, 1), "refused 4 at 9\n"),
        (reading(1, 27, 0, 5), "refused 5 at 27\n"),
        (Command::Watermark(43), "refused 6 at 43\n"),
        (reading(2, 100, 0, 7), ""),
        (reading(2, 100, 1, 7), ""),
        (Command::Watermark(111), "+ 2 100 100 2 14\n"),
        (Command::Watermark(120), ""),
    ];
    let mut sessions = Reference::new(
        heap,
        Terms {
            gap: 10,
            lateness: 30,
            day: 100,
        },
    );
    for (command, expected) in rows {
        let answer = sessions.apply(heap, command)?;
        let mut text = String::new(heap);
        put_answer(&mut text, &answer)?;
        assert_eq!(rt; text.as_str(), expected);
    }
    let lines = sessions.ledger(heap)?;
    let mut text = String::new(heap);
    put_ledger(&mut text, lines.as_slice())?;
    assert_eq!(rt;
        text.as_str(),
        "card 1 day 0 visits 1 sum 15\ncard 2 day 1 visits 1 sum 14\n"
    );
    Ok(())
}

const CHANGES: &str =
    "+ 1 5 12 2 5\n- 1 5 12 2 5\n+ 1 5 20 3 6\n- 1 5 20 3 6\n+ 1 5 33 5 15\nrefused 4 at 9\nrefused 5 at 27\nrefused 6 at 43\n+ 2 100 100 2 14\n";

const LEDGER: &str = "card 1 day 0 visits 1 sum 15\ncard 2 day 1 visits 1 sum 14\n";

const TERMS: Terms = Terms {
    gap: 10,
    lateness: 30,
    day: 100,
};

// The cut is within a command.
#[test]
fn whole_or_cut(rt: HostRuntime) -> Result<(), Fail> {
    let heap = rt.alloc();
    let (_, day, _) = DAYS[0];
    let mut file = convert::pack(heap, day.as_bytes())?;
    file.extend_from_slice(b"\x05 is no kind")?;
    let (terms, rest) = read_terms(&file).unwrap_or((TERMS, &[]));
    let (front, behind) = rest.split_at(rest.len().min(30));
    let whole = report::run(heap, Reference::new(heap, terms), rest)?;
    let cut = report::in_pieces(heap, Reference::new(heap, terms), &[front, behind])?;
    let text = format!(in heap; "{CHANGES}{LEDGER}")?;
    for report in [&whole, &cut] {
        assert_eq!(rt; report.text, text);
        assert_eq!(rt; report.unread, 12);
    }
    Ok(())
}

// The first command to a lent row: a row that was just cleared is known to be a store.
fn first_answer(
    heap: Global,
    row: &mut [u64],
    out: &mut [u64],
    command: Command,
) -> Result<Answer, AllocError>
    requires { store_size ≤ length row.old }
{
    clear(row, TERMS);
    answer_sound(heap, FULL, row, out, command)
}

#[test]
fn lent_row(rt: HostRuntime) -> Result<(), Fail> {
    let heap = rt.alloc();
    let mut row = vec![in heap; 0; STORE_SIZE]?;
    let mut out = vec![in heap; 0; OUT_SIZE]?;
    let (row, out) = (row.as_mut_slice(), out.as_mut_slice());
    let mut text = String::new(heap);
    put_answer(
        &mut text,
        &first_answer(heap, row, out, reading(1, 5, 0, 2))?,
    )?;
    for command in [Command::Watermark(16), reading(1, 9, 0, 1)] {
        put_answer(&mut text, &answer(heap, FULL, row, out, command)?)?;
    }
    assert_eq!(rt; text.as_str(), "+ 1 5 5 1 2\n- 1 5 5 1 2\n");
    Ok(())
}

// Gives one byte at every other call, and is interrupted at the others.
#[derive(Drop)]
struct Slow<'a> {
    bytes: &'a [u8],
    interrupted: bool,
}

impl Read for Slow<'_> {
    fn read(&mut self, buffer: &mut [u8]) -> io::Result<usize> {
        self.interrupted = !self.interrupted;
        if self.interrupted {
            return Err(io::Error::new(ErrorKind::Interrupted, "interrupted"));
        }
        let (mut byte, rest) = self.bytes.split_at(self.bytes.len().min(1));
        let n = byte.read(buffer)?;
        if n > 0 {
            self.bytes = rest;
        }
        Ok(n)
    }
}

#[derive(Drop)]
struct Failing;

impl Read for Failing {
    fn read(&mut self, _buffer: &mut [u8]) -> io::Result<usize> {
        Err(io::Error::other("lost"))
    }
}

#[test]
fn byte_by_byte(rt: HostRuntime) -> Result<(), Fail> {
    let heap = rt.alloc();
    let (_, day, _) = DAYS[0];
    let mut file = convert::pack(heap, day.as_bytes())?;
    let end = file.len() as u64;
    file.extend_from_slice(b"\x05 is no kind, and what is behind it is not read")?;
    let mut source = Slow {
        bytes: file.as_slice(),
        interrupted: false,
    };
    let mut out = Vec::new(heap);
    let at = report::by_store::settle_stream(heap, SMALL, &mut source, &mut out)?;
    assert_eq!(rt; at, Some(end));
    let text = format!(in heap; "{CHANGES}{LEDGER}")?;
    assert_eq!(rt; out.as_slice(), text.as_bytes());
    Ok(())
}

// What came before the failure was written, and no ledger.
#[test]
fn lost_on_the_way(rt: HostRuntime) -> Result<(), Fail> {
    let heap = rt.alloc();
    let (_, day, _) = DAYS[0];
    let file = convert::pack(heap, day.as_bytes())?;
    let mut source = file.as_slice().chain(Failing);
    let mut out = Vec::new(heap);
    let result = report::recompute_stream(heap, &mut source, &mut out);
    assert!(rt; result.is_err());
    assert_eq!(rt; out.as_slice(), CHANGES.as_bytes());
    Ok(())
}
