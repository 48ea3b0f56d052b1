//! Who knows what the administration shows.

ghost use Rattle.std.specs.Prelude.{ℕ, IfOk};
ghost use Rattle.pfs_admin.specs.AdministrationStates.{State};
ghost use Rattle.pfs_runs.specs.SelectAnswers.{AnswersHeld};

use crate::NoMemory;
use pfs_exec::Select;
use pfs_text::Rowset;
use std::alloc::Global;

/// Who knows which rows of actors and objects the administration holds before each action.
pub trait Shows {
    /// Before the action of a number it holds what this state holds.
    ghost knows: { Self → (ℕ → State) → Type 0 };

    /// What a SELECT on them is answered as the action of this number. Err where memory runs out.
    fn answer(&self, alloc: Global, number: u64, select: &Select) -> Result<Rowset, NoMemory>
        ensures { (before : ℕ → State) → knows self.now before
            → IfOk result (AnswersHeld select.now (before number).actors (before number).objects) };
}
