//! What a report prints of each action beside its sets, kept by the numbers of the actions.

ghost use Rattle.std.specs.Prelude.{ℕ, ◌≡◌, ◌++◌, ◌∷◌, [], ◌==◌, cond, false, OnOk};
ghost use Rattle.pfs_check_moves.specs.PrintedMoves.{ArePrinted, IsPrintedMore, is_moving, moves_of};

use crate::NoMemory;
use pfs_event::Entry;
use std::alloc::Global;
use std::collections::BTreeMap;

/// The takes and gives, the releases and tags of each action.
#[derive(Drop)]
pub(crate) struct PrintedMoves {
    pub kept: BTreeMap<u64, Vec<Entry>>,
}

// Takes out those of an action.
fn take_moves(alloc: Global, kept: &mut BTreeMap<u64, Vec<Entry>>, number: u64) -> Vec<Entry>
    ensures own { result.items ≡ moves_of kept.old number }
    ensures others { (other : ℕ) → (number == other) ≡ false → moves_of kept.new other ≡ moves_of kept.old other }
{
    match kept.remove(&number) {
        Some(own) => own,
        None => Vec::new(alloc),
    }
}

fn keep_moves(
    kept: &mut BTreeMap<u64, Vec<Entry>>,
    number: u64,
    own: Vec<Entry>,
) -> Result<(), NoMemory>
    ensures { OnOk result ((other : ℕ) → moves_of kept.new other
        ≡ cond (number == other) own.items (moves_of kept.old other)) }
{
    kept.insert(number, own)?;
    Ok(())
}

fn push_move(
    alloc: Global,
    kept: &mut BTreeMap<u64, Vec<Entry>>,
    number: u64,
    entry: Entry,
) -> Result<(), NoMemory>
    ensures { OnOk result ((other : ℕ) → moves_of kept.new other
        ≡ cond (number == other) (moves_of kept.old number ++ entry ∷ []) (moves_of kept.old other)) }
{
    let mut own = take_moves(alloc, kept, number);
    own.push(entry)?;
    keep_moves(kept, number, own)
}

// Whether it is a change by an action, and no set.
fn is_moving(entry: &Entry) -> bool
    ensures { result ≡ is_moving entry.now }
{
    matches!(
        *entry,
        Entry::Take { .. } | Entry::Give { .. } | Entry::Free { .. } | Entry::Tag { .. }
    )
}

fn no_moves(alloc: Global) -> BTreeMap<u64, Vec<Entry>>
    ensures { (number : ℕ) → moves_of result number ≡ [] }
{
    BTreeMap::new(alloc)
}

impl PrintedMoves {
    /// Of no entries. It takes no memory.
    pub(crate) fn new(alloc: Global) -> PrintedMoves
        ensures { ArePrinted [] result.kept }
    {
        PrintedMoves {
            kept: no_moves(alloc),
        }
    }

    /// One entry more of an action; 0 is none. Err where memory runs out.
    pub(crate) fn note(&mut self, alloc: Global, action: u64, entry: &Entry) -> Result<(), NoMemory>
        ensures { OnOk result (IsPrintedMore self.old.kept self.new.kept action entry.now) }
    {
        if is_moving(entry) {
            return push_move(alloc, &mut self.kept, action, *entry);
        }
        Ok(())
    }

    /// Those of an action, in the order of the report.
    pub(crate) fn of(&self, number: u64) -> &[Entry]
        ensures { result.now ≡ moves_of self.now.kept number }
    {
        match self.kept.get(&number) {
            Some(own) => own.as_slice(),
            None => &[],
        }
    }
}
