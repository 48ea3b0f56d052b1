//! The actions of a script.

ghost use Rattle.std.specs.Prelude.{◌≡◌, ◌-◌, ◌++◌, List, OnOk, slice_get};
ghost use Rattle.std.specs.Option.{option_copied, option_to_list};
ghost use Rattle.pfs_admin.specs.declared.changes.Change.{Change};
ghost use Rattle.pfs_runs.specs.ScriptLines.{change_in};
ghost use Rattle.pfs_script.specs.declared.blocks.Phase.{Phase};
ghost use Rattle.pfs_check_changes.specs.ActionNumbers.{AreListed, Grows, StandFor, numbers_at, show_if};

use crate::NoMemory;
use pfs_admin::Change;
use pfs_board::Label;
use std::collections::BTreeMap;

/// The actions of a script. A line that stands in a repeat is kept once, and read once.
#[derive(Drop)]
pub struct Actions {
    /// What the lines that are actions change.
    pub changes: Vec<Change>,
    /// Of each session the places of its actions among these, in their order.
    pub numbers: BTreeMap<u64, Vec<usize>>,
}

/// An action more, if this is one. Err where memory runs out.
pub(crate) fn put_action(
    changes: &mut Vec<Change>,
    numbers: &mut Vec<usize>,
    change: Option<Change>,
) -> Result<(), NoMemory>
    ensures own { OnOk result ((made : List Change) → StandFor changes.old.items numbers.old.items made
        → StandFor changes.new.items numbers.new.items (made ++ option_to_list change)) }
    ensures grows { OnOk result (Grows changes.old.items changes.new.items) }
{
    match change {
        Some(change) => {
            numbers.push(changes.as_slice().len())?;
            changes.push(change)?;
            Ok(())
        }
        None => Ok(()),
    }
}

// The place of a session's action among the changes that are kept; None where it has no such line.
fn place_of(numbers: &BTreeMap<u64, Vec<usize>>, label: Label) -> Option<usize>
    ensures { result ≡ slice_get (numbers_at numbers.now label.session) (label.line - 1) }
{
    let at = label.line.saturating_sub(1);
    match numbers.get(&label.session) {
        Some(own) => own.get(at as usize).copied(),
        None => None,
    }
}

impl Actions {
    /// What the action of a label changes, the session's administration line of that number; None where the script has
    /// no such line, as `change_in` then has it a statement that only reads.
    pub fn change(&self, label: Label) -> Option<&Change>
        ensures { (phases : List Phase) → AreListed phases self.now
            → show_if (option_copied result) ≡ change_in phases label }
    {
        match place_of(&self.numbers, label) {
            Some(place) => self.changes.get(place),
            None => None,
        }
    }
}
