// A whole command file to the whole text.
#![tactic(auto)]

pub mod by_store;
pub mod pieces;
pub mod same;
pub mod sessions;
pub mod streams;

ghost use Rattle.feed.specs.Files.{commands, unread as Unread};
ghost use Rattle.report.specs.Streams.{OfSource, Streamed};
ghost use Rattle.report.specs.Texts.{recompute_text};
ghost use Rattle.report.specs.Whole.{Reported, ReportedBy};
ghost use Rattle.std.specs.List.{flat_map};
ghost use Rattle.std.specs.Prelude.{◌≡◌, IfOk, Ok, string_bytes};

use feed::files::read_terms;
use feed::text::put_ledger;
pub use feed::whole::{FileError, FileText};
use pieces::{Reporting, apply_whole};
use reference::Reference;
use sessions::Sessions;
use std::alloc::{AllocError, Global};
use std::io::{Read, Write};
use streams::{StreamError, stream};
use visit::Terms;

// The report of commands that come in pieces: however they are cut, it is that of the pieces put together.
pub fn in_pieces<S: Sessions + Drop>(
    heap: Global,
    sessions: S,
    pieces: &[&[u8]],
) -> Result<FileText, AllocError>
    ensures text { IfOk result (λ p. string_bytes p.text ≡ S.prints sessions (commands (flat_map (λ piece. piece.now) pieces.now))) }
    ensures rest { IfOk result (λ p. p.unread ≡ Unread (flat_map (λ piece. piece.now) pieces.now)) }
{
    let mut text = String::new(heap);
    let mut reporting = Reporting::new(heap, sessions);
    for piece in pieces {
        reporting.take(heap, piece, &mut text)?;
    }
    let unread = reporting.end(heap, &mut text)?;
    Ok(FileText { text, unread })
}

// The report of commands that lie in memory together: they are done where they lie, and nothing of them is copied.
#[tactic(auto, using(crate::proofs::Cutting::whole_unread))]
pub fn run<S: Sessions + Drop>(
    heap: Global,
    mut sessions: S,
    bytes: &[u8],
) -> Result<FileText, AllocError>
    ensures text { IfOk result (λ p. string_bytes p.text ≡ S.prints sessions (commands bytes.now)) }
    ensures rest { IfOk result (λ p. p.unread ≡ Unread bytes.now) }
{
    let mut text = String::new(heap);
    let done = apply_whole(heap, &mut sessions, &mut text, bytes)?;
    let lines = sessions.ledger(heap)?;
    put_ledger(&mut text, &lines)?;
    Ok(FileText {
        text,
        unread: bytes.len() - done,
    })
}

// The report of a whole file by what is made of its terms.
fn report<S: Sessions + Drop, F: FnOnce(Terms) -> Result<S, AllocError>>(
    heap: Global,
    file: &[u8],
    start: F,
) -> Result<FileText, FileError>
    requires { F.IsAlwaysCallable start }
    ensures { ReportedBy (λ t s. F.post start t (Ok s)) S.prints file.now result }
{
    let (terms, rest) = read_terms(file).ok_or(FileError::TooShort)?;
    Ok(run(heap, start(terms)?, rest)?)
}

// The report of a whole file by the reference.
pub fn recompute(heap: Global, file: &[u8]) -> Result<FileText, FileError>
    ensures { Reported recompute_text file.now result }
{
    report(heap, file, |terms| Ok(Reference::new(heap, terms)))
}

// The same of a source that is read piece by piece, written as it comes. Says at which byte reading stopped, if it did before the end.
pub fn recompute_stream<R: Read, W: Write>(
    heap: Global,
    source: &mut R,
    out: &mut W,
) -> Result<Option<u64>, StreamError>
    ensures { OfSource (λ file. Streamed recompute_text file (W.contents out.old) (W.contents out.new)) (R.remaining source.old) result }
{
    stream(heap, source, out, |terms| Ok(Reference::new(heap, terms)))
}
