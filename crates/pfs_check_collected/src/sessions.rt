//! Notes of each session.

ghost use Rattle.std.specs.Prelude.{ℕ, ◌≡◌, ◌==◌, false, cond, Option, Some, OnOk};
ghost use Rattle.std.specs.BTreeMap.{get};
ghost use Rattle.std.specs.Ordering.{nat_cmp};
ghost use Rattle.pfs_model.specs.Contexts.{Context};
ghost use Rattle.pfs_model.specs.declared.changes.Change.{Change};
ghost use Rattle.pfs_check_notes.specs.SessionNotes.{AreNotesOf};
ghost use Rattle.pfs_check_collected.specs.CollectedChanges.{AreNotesFor};

use crate::NoMemory;
use pfs_check_notes::SessionNotes;
use std::alloc::Global;
use std::collections::BTreeMap;

/// Takes out the notes of a session; those of one that has done nothing, before its first entry.
pub(crate) fn take_notes(
    alloc: Global,
    all: &mut BTreeMap<u64, SessionNotes>,
    session: u64,
) -> SessionNotes
    ensures own { (left : Context) → (taken : Option Change) → AreNotesFor left taken (get nat_cmp all.old session)
        → AreNotesOf left taken result }
    ensures others { (other : ℕ) → (session == other) ≡ false → get nat_cmp all.new other ≡ get nat_cmp all.old other }
{
    match all.remove(&session) {
        Some(notes) => notes,
        None => SessionNotes::new(alloc),
    }
}

/// Keeps them while others are walked.
pub(crate) fn keep_notes(
    all: &mut BTreeMap<u64, SessionNotes>,
    session: u64,
    notes: SessionNotes,
) -> Result<(), NoMemory>
    ensures { OnOk result ((other : ℕ) → get nat_cmp all.new other
        ≡ cond (session == other) (Some notes) (get nat_cmp all.old other)) }
{
    all.insert(session, notes)?;
    Ok(())
}
