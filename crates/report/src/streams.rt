// A source that is read piece by piece, and the text written as it comes.
ghost use Rattle.std.specs.Prelude.{◌≡◌, ◌+◌, ◌≤◌, ◌<◌, ◌^◌, ℕ, List, [], Some, IfOk, IfSome, OnOk, take, length, vec_len, Ok};
ghost use Rattle.std.specs.Io.{ReadsAtMost};
ghost use Rattle.std.specs.Io.KnownBytes.{Appends, Consumes, IsAtEnd, ReadConsumes};
ghost use Rattle.feed.specs.Files.{body, commands, terms_in, terms_size};
ghost use Rattle.feed.specs.declared.whole.FileError.TheVariants.{NoMemory, TooShort};
ghost use Rattle.report.specs.Pieces.{Unreadable, still_prints, still_unread};
ghost use Rattle.report.specs.Streams.{Advances, OfPieces, OfSource, StreamedBy, stop_in};
ghost use Rattle.report.specs.declared.streams.StreamError.TheVariants.{File, Io};

use crate::pieces::Reporting;
use crate::sessions::Sessions;
use feed::files::{TERMS_SIZE, read_terms};
use feed::whole::FileError;
use std::alloc::{AllocError, Global};
use std::error::Error;
use std::io::{ErrorKind, Read, Write};
use std::{fmt, io};
use visit::Terms;

// How many bytes are read at a time, at most.
const PIECE_SIZE: usize = 65536;

// Why a source is not reported: its file is not, or it cannot be read, or the text cannot be written.
#[derive(Clone, Copy, Debug, Drop)]
pub enum StreamError {
    File(FileError),
    Io(io::Error),
}

impl fmt::Display for StreamError {
    fn fmt<W: fmt::Write>(&self, f: &mut fmt::Formatter<W>) -> fmt::Result {
        match self {
            Self::File(error) => write!(f, "{error}"),
            Self::Io(error) => write!(f, "{error}"),
        }
    }
}

impl Error for StreamError {}

// By hand, as in `feed::whole`: the contracts name the case.
impl From<FileError> for StreamError {
    ghost from_gives = { λ error e. e ≡ File error };

    fn from(error: FileError) -> StreamError {
        StreamError::File(error)
    }
}

impl From<AllocError> for StreamError {
    ghost from_gives = { λ _ e. e ≡ File NoMemory };

    fn from(_error: AllocError) -> StreamError {
        StreamError::File(FileError::NoMemory)
    }
}

impl From<io::Error> for StreamError {
    ghost from_gives = { λ error e. e ≡ Io error };

    fn from(error: io::Error) -> StreamError {
        StreamError::Io(error)
    }
}

// The next bytes of the source; none at its end. A read that a signal interrupted is tried again.
fn read_piece<R: Read>(source: &mut R, buffer: &mut [u8]) -> io::Result<usize>
    ensures bound { ReadsAtMost result buffer.new }
    ensures bytes { ReadConsumes (R.remaining source.old) (R.remaining source.new) result buffer.new }
{
    for _ in 0..u64::MAX {
        match source.read(buffer) {
            Err(error) if error.kind() == ErrorKind::Interrupted => {}
            result => return result,
        }
    }
    Err(io::Error::other("too many interruptions"))
}

// As many bytes as the buffer has room for, or fewer at the end of the source.
#[tactic(auto, using(crate::proofs::Sources::fills_more))]
fn fill<R: Read>(source: &mut R, buffer: &mut [u8]) -> io::Result<usize>
    ensures bound { IfOk result (λ n. n ≤ length buffer.new) }
    ensures bytes { IfOk result (λ n. Consumes (R.remaining source.old) (R.remaining source.new) (take n buffer.new)) }
    ensures end { IfOk result (λ n. n < length buffer.new → IsAtEnd (R.remaining source.new)) }
{
    let mut filled = 0;
    while filled < buffer.len() {
        let n = read_piece(source, &mut buffer[filled..])?;
        if n == 0 {
            break;
        }
        filled += n;
    }
    Ok(filled)
}

// Reads a piece, and writes what is printed of the commands that are whole then. Says how many bytes came: none where
// nothing comes that could be read.
fn report_piece<S: Sessions, R: Read, W: Write>(
    heap: Global,
    reporting: &mut Reporting<S>,
    source: &mut R,
    out: &mut W,
    buffer: &mut [u8],
    text: &mut String,
) -> Result<usize, StreamError>
    requires { 0 < length buffer.old }
    ensures advances { OfPieces (λ n. Advances S.prints reporting.old (R.remaining source.old) (W.contents out.old) n (R.remaining source.new) (W.contents out.new) reporting.new) result }
    ensures end { IfOk result (λ n. n ≡ 0 → IfSome (R.remaining source.new) (Unreadable S.prints reporting.new)) }
{
    if reporting.is_stuck() {
        return Ok(0);
    }
    let n = read_piece(source, buffer)?;
    if n > 0 {
        text.clear();
        reporting.take(heap, &buffer[..n], text)?;
        out.write_all(text.as_bytes())?;
    }
    Ok(n)
}

// Room for a piece.
fn piece_buffer(heap: Global) -> Result<Vec<u8>, AllocError>
    ensures { IfOk result (λ v. 0 < vec_len v) }
{
    vec![in heap; 0; PIECE_SIZE]
}

// Reads what is left of a source, and writes the text as it comes. Says how many bytes came.
#[tactic(auto, using(crate::proofs::Sources::advances_none, crate::proofs::Sources::advances_more))]
fn report_all<S: Sessions, R: Read, W: Write>(
    heap: Global,
    reporting: &mut Reporting<S>,
    source: &mut R,
    out: &mut W,
) -> Result<u64, StreamError>
    ensures advances { OfPieces (λ n. Advances S.prints reporting.old (R.remaining source.old) (W.contents out.old) n (R.remaining source.new) (W.contents out.new) reporting.new) result }
    ensures end { OnOk result (IfSome (R.remaining source.new) (Unreadable S.prints reporting.new)) }
{
    let mut buffer = piece_buffer(heap)?;
    let mut text = String::new(heap);
    let mut count: u64 = 0;
    for _ in 0..u64::MAX {
        let n = report_piece(heap, reporting, source, out, &mut buffer, &mut text)?;
        if n == 0 {
            return Ok(count);
        }
        count = count.saturating_add(n as u64);
    }
    Err(StreamError::Io(io::Error::other("too many pieces")))
}

// The terms at the beginning of a source.
fn read_front<R: Read>(source: &mut R) -> Result<Terms, StreamError>
    ensures { OfSource (λ file t. (terms_in file ≡ Some t) × (R.remaining source.new ≡ Some (body file))) (R.remaining source.old) result }
{
    let mut front = [0; TERMS_SIZE];
    let found = fill(source, &mut front)?;
    let Some((terms, _)) = read_terms(&front[..found]) else {
        return Err(StreamError::File(FileError::TooShort));
    };
    Ok(terms)
}

// Writes the ledger, and says how many bytes are left.
fn write_end<S: Sessions, W: Write>(
    heap: Global,
    reporting: &Reporting<S>,
    out: &mut W,
) -> Result<usize, StreamError>
    ensures { OfPieces (λ n. Appends (W.contents out.old) (W.contents out.new) (still_prints S.prints reporting.now []) × (n ≡ still_unread reporting.now [])) result }
{
    let mut text = String::new(heap);
    let unread = reporting.end(heap, &mut text)?;
    out.write_all(text.as_bytes())?;
    Ok(unread)
}

// Writes the text of all commands of a source that is behind its terms. Says at which byte of the file reading stopped, if
// it did before the end.
fn stream_commands<S: Sessions + Drop, R: Read, W: Write>(
    heap: Global,
    sessions: S,
    source: &mut R,
    out: &mut W,
) -> Result<Option<u64>, StreamError>
    ensures { OfPieces (λ at. IfSome (R.remaining source.old) (λ bs. Appends (W.contents out.old) (W.contents out.new) (S.prints sessions (commands bs)) × (terms_size + length bs < 2 ^ 64 → at ≡ stop_in bs))) result }
{
    let mut reporting = Reporting::new(heap, sessions);
    let count = report_all(heap, &mut reporting, source, out)?;
    let unread = write_end(heap, &reporting, out)?;
    let at = count
        .saturating_add(TERMS_SIZE as u64)
        .saturating_sub(unread as u64);
    Ok((unread > 0).then_some(at))
}

// The report of a source by what is made of its terms. Says at which byte reading stopped, if it did before the end.
pub(crate) fn stream<
    S: Sessions + Drop,
    F: FnOnce(Terms) -> Result<S, AllocError>,
    R: Read,
    W: Write,
>(heap: Global, source: &mut R, out: &mut W, start: F) -> Result<Option<u64>, StreamError>
    requires { F.IsAlwaysCallable start }
    ensures { OfSource (λ file. StreamedBy (λ t s. F.post start t (Ok s)) S.prints file (W.contents out.old) (W.contents out.new)) (R.remaining source.old) result }
{
    let terms = read_front(source)?;
    stream_commands(heap, start(terms)?, source, out)
}
