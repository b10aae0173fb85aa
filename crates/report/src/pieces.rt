// A file that comes in pieces: however it is cut, the texts of the pieces put together are the text of the file.
ghost use Rattle.std.specs.Prelude.{◌≡◌, ℕ, ◌+◌, ◌<◌, ◌≤◌, List, [], ◌∷◌, ◌++◌, IfOk, OnOk, drop, length, string_bytes, true, false};
ghost use Rattle.command.specs.declared.Command.{Command};
ghost use Rattle.feed.specs.Files.{commands, reading_size, unread as Unread};

use crate::sessions::Sessions;
use command::Command;
use feed::files::{Commands, unknown_kind};
use feed::text::{put_answer, put_ledger};
use std::alloc::{AllocError, Global};
use std::mem;

// Does one command, and puts the text of its answer behind the text.
fn apply_one<S: Sessions>(
    heap: Global,
    sessions: &mut S,
    text: &mut String,
    command: Command,
) -> Result<(), AllocError>
    ensures { OnOk result ((cs : List Command) → string_bytes text.new ++ S.prints sessions.new cs ≡ string_bytes text.old ++ S.prints sessions.old (command ∷ cs)) }
{
    let answer = sessions.apply(heap, command)?;
    put_answer(text, &answer)
}

// Does the commands that are whole in the bytes, and says how many bytes they take.
pub(crate) fn apply_whole<S: Sessions>(
    heap: Global,
    sessions: &mut S,
    text: &mut String,
    bytes: &[u8],
) -> Result<usize, AllocError>
    ensures text { IfOk result (λ n. (more : List ℕ) → string_bytes text.new ++ S.prints sessions.new (commands (drop n bytes.now ++ more)) ≡ string_bytes text.old ++ S.prints sessions.old (commands (bytes.now ++ more))) }
    ensures rest { IfOk result (λ n. (more : List ℕ) → Unread (drop n bytes.now ++ more) ≡ Unread (bytes.now ++ more)) }
    ensures none { IfOk result (λ n. Unread (drop n bytes.now) ≡ length (drop n bytes.now)) }
    ensures within { IfOk result (λ n. n ≤ length bytes.now) }
{
    let mut commands = Commands::new(bytes);
    // Nothing is known of an iterator that a `for` has borrowed, and what is left is asked for.
    while let Some(command) = commands.next() {
        apply_one(heap, sessions, text, command)?;
    }
    Ok(bytes.len() - commands.unread())
}

// Drops the first bytes, and keeps the memory.
fn drop_front(bytes: &mut Vec<u8>, n: usize)
    requires { n ≤ length bytes.old.items }
    ensures { bytes.new.items ≡ drop n bytes.old.items }
{
    let rest = bytes.len() - n;
    bytes.copy_within(n.., 0);
    bytes.truncate(rest);
}

// What does the commands, and the bytes that have come of the next command.
#[derive(Drop)]
pub struct Reporting<S> {
    sessions: S,
    held: Vec<u8>,
    ghost begun: { Unread held.items ≡ length held.items },
}

impl<S: Sessions> Reporting<S> {
    ghost use Rattle.report.specs.Pieces.{Unreadable, still_prints, still_unread};

    #[tactic(auto, using(feed::proofs::Cutting::none_left))]
    pub fn new(heap: Global, sessions: S) -> Reporting<S>
        ensures text { (more : List ℕ) → still_prints S.prints result more ≡ S.prints sessions (commands more) }
        ensures rest { (more : List ℕ) → still_unread result more ≡ Unread more }
    {
        Reporting {
            sessions,
            held: Vec::new(heap),
        }
    }

    // Takes the next piece, and puts behind the text what is printed of the commands that are whole now.
    // After an error, which means want of memory, some of them may be done and their text lost.
    #[tactic(auto, using(feed::proofs::Cutting::none_left))]
    pub fn take(&mut self, heap: Global, piece: &[u8], text: &mut String) -> Result<(), AllocError>
        ensures text { OnOk result ((more : List ℕ) → string_bytes text.new ++ still_prints S.prints self.new more ≡ string_bytes text.old ++ still_prints S.prints self.old (piece.now ++ more)) }
        ensures rest { OnOk result ((more : List ℕ) → still_unread self.new more ≡ still_unread self.old (piece.now ++ more)) }
    {
        // Taken out, so that nothing is held if a call fails.
        let mut bytes = mem::replace(&mut self.held, Vec::new(heap));
        bytes.extend_from_slice(piece)?;
        let done = apply_whole(heap, &mut self.sessions, text, bytes.as_slice())?;
        drop_front(&mut bytes, done);
        self.held = bytes;
        Ok(())
    }

    // Whether nothing that may come can be read: the next command is of unknown kind. Else few bytes are held.
    #[tactic(auto, using(feed::proofs::Cutting::known_short, feed::proofs::Cutting::unknown_commands, feed::proofs::Cutting::unknown_unread))]
    pub fn is_stuck(&self) -> bool
        ensures stuck { result ≡ true → (more : List ℕ) → Unreadable S.prints self.now more }
        ensures few { result ≡ false → still_unread self.now [] < reading_size }
    {
        unknown_kind(self.held.as_slice())
    }

    // The end of the file: puts the ledger behind the text, and says how many bytes are left.
    #[tactic(auto, using(feed::proofs::Cutting::none_commands))]
    pub fn end(&self, heap: Global, text: &mut String) -> Result<usize, AllocError>
        ensures text { OnOk result (string_bytes text.new ≡ string_bytes text.old ++ still_prints S.prints self.now []) }
        ensures rest { IfOk result (λ n. n ≡ still_unread self.now []) }
    {
        let lines = self.sessions.ledger(heap)?;
        put_ledger(text, &lines)?;
        Ok(self.held.len())
    }
}
