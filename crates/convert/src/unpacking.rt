// A command file to text.
ghost use Rattle.convert.specs.Unpacking.{contents, unpacked};
ghost use Rattle.days.specs.Writing.{command_text};
ghost use Rattle.feed.specs.Files.{commands, unread as Unread};
ghost use Rattle.std.specs.Prelude.{◌≡◌, IfOk, Some};
ghost use Rattle.feed.specs.Whole.{OfFile};
ghost use Rattle.std.specs.List.{flat_map};
ghost use Rattle.visit.specs.Text.{Puts};

use days::{put_command, put_terms};
use feed::files::{Commands, read_terms};
use feed::whole::{FileError, FileText};
use std::alloc::{AllocError, Global};

// Puts commands behind the text up to where decoding stops, and gives how many bytes are left there.
fn put_commands(text: &mut String, bytes: &[u8]) -> Result<usize, AllocError>
    ensures lines { Puts result text.old (flat_map command_text (commands bytes.now)) text.new }
    ensures rest { IfOk result (λ n. n ≡ Unread bytes.now) }
{
    let mut found = Commands::new(bytes);
    // The walk of `report::run`, with another text for each command. Nothing is known of an iterator that a `for` has borrowed, and what is left is asked for.
    while let Some(command) = found.next() {
        put_command(text, command)?;
    }
    Ok(found.unread())
}

// The text of a whole file.
pub fn unpack(heap: Global, file: &[u8]) -> Result<FileText, FileError>
    ensures { OfFile (λ u. Some (contents u) ≡ unpacked file.now) file.now result }
{
    let (terms, rest) = read_terms(file).ok_or(FileError::TooShort)?;
    let mut text = String::new(heap);
    put_terms(&mut text, terms)?;
    let unread = put_commands(&mut text, rest)?;
    Ok(FileText { text, unread })
}
