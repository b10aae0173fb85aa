// A whole command file to the whole text, by a store.
ghost use Rattle.owned.specs.State.{IsNew};
ghost use Rattle.report.specs.Texts.{settle_text};
ghost use Rattle.report.specs.Streams.{OfSource, Streamed, StreamedAsRecomputed};
ghost use Rattle.report.specs.Whole.{AsRecomputed, Reported};
ghost use Rattle.std.specs.Prelude.{IfOk, IfSome, OnOk};

use crate::report;
use crate::streams::{StreamError, stream};
use feed::whole::{FileError, FileText};
use owned::OwnedStore;
use std::alloc::{AllocError, Global};
use std::io::{Read, Write};
use store::capacity::Capacity;
use visit::Terms;

// The report of a whole file by a store that may keep so much.
// The text is that of `recompute` unless a command is refused for want of room or for a number past its bound.
pub fn settle(heap: Global, capacity: Capacity, file: &[u8]) -> Result<FileText, FileError>
    ensures report { Reported (settle_text capacity) file.now result }
    ensures same { AsRecomputed capacity file.now result }
{
    report(
        heap,
        file,
        |terms: Terms| -> Result<OwnedStore, AllocError>
            ensures { IfOk result (IsNew terms capacity) }
        { OwnedStore::new(heap, terms, capacity) },
    )
}

// The same of a source that is read piece by piece, written as it comes. Says at which byte reading stopped, if it did before the end.
pub fn settle_stream<R: Read, W: Write>(
    heap: Global,
    capacity: Capacity,
    source: &mut R,
    out: &mut W,
) -> Result<Option<u64>, StreamError>
    ensures report { OfSource (λ file. Streamed (settle_text capacity) file (W.contents out.old) (W.contents out.new)) (R.remaining source.old) result }
    ensures same { IfSome (R.remaining source.old) (λ file. OnOk result (StreamedAsRecomputed capacity file (W.contents out.old) (W.contents out.new))) }
{
    let start = |terms: Terms| -> Result<OwnedStore, AllocError>
        ensures { IfOk result (IsNew terms capacity) }
    { OwnedStore::new(heap, terms, capacity) };
    stream(heap, source, out, start)
}
