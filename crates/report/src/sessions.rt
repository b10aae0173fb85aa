// What does the commands of a file: the reference, or a store.
ghost use Rattle.std.specs.Prelude.{◌≡◌, ℕ, List, [], ◌∷◌, ◌++◌, IfOk};
ghost use Rattle.command.specs.Outcomes.{outcome_of};
ghost use Rattle.command.specs.declared.Command.{Command};
ghost use Rattle.feed.specs.Text.{ledger_text, outcome_text};
ghost use Rattle.owned.specs.State.{capacity_of, out_long, row_of};
ghost use Rattle.reference.specs.State.{model_of, terms_of};
ghost use Rattle.report.specs.Texts.{reference_prints, store_prints};

use command::{Answer, Command};
use owned::OwnedStore;
use reference::Reference;
use std::alloc::{AllocError, Global};
use visit::Line;

pub trait Sessions {
    // The text that it would print for a list of commands, the ledger last.
    ghost prints: { Self → List Command → List ℕ };

    fn apply(&mut self, heap: Global, command: Command) -> Result<Answer, AllocError>
        ensures { IfOk result (λ a. (cs : List Command) → prints self.old (command ∷ cs) ≡ outcome_text (outcome_of a) ++ prints self.new cs) };

    fn ledger(&self, heap: Global) -> Result<Vec<Line>, AllocError>
        ensures { IfOk result (λ v. prints self.now [] ≡ ledger_text v.items) };
}

impl Sessions for Reference {
    ghost prints = { λ r cs. reference_prints (terms_of r) (model_of r) cs };

    fn apply(&mut self, heap: Global, command: Command) -> Result<Answer, AllocError> {
        self.apply(heap, command)
    }

    fn ledger(&self, heap: Global) -> Result<Vec<Line>, AllocError> {
        self.ledger(heap)
    }
}

impl Sessions for OwnedStore {
    ghost prints = { λ s cs. store_prints (capacity_of s) (out_long s) (row_of s) cs };

    fn apply(&mut self, heap: Global, command: Command) -> Result<Answer, AllocError> {
        OwnedStore::apply(self, heap, command)
    }

    fn ledger(&self, heap: Global) -> Result<Vec<Line>, AllocError> {
        OwnedStore::ledger(self, heap)
    }
}
