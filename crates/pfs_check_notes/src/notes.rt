//! What is kept of a session beside its track.

ghost use Rattle.std.specs.Prelude.{ℕ, ◌≡◌, None, Option, OnOk};
ghost use Rattle.pfs_law_contexts.specs.TakenSources.{in_action, taken_behind};
ghost use Rattle.pfs_model.specs.Contexts.{Context, first_of, fresh, noted, subject_of};
ghost use Rattle.pfs_model.specs.declared.changes.Change.{Change};
ghost use Rattle.pfs_check_notes.specs.SessionNotes.{AreNotesOf, StepsFrom, ended_behind};

use crate::NoMemory;
use crate::outers::note_outers;
use pfs_check_amounts::Outer;
use pfs_event::Entry;
use pfs_model::{Change, Line, Opened};
use std::alloc::Global;

/// What a session's entries leave, as far as its track doesn't tell it: its let-through open events, the innermost last;
/// the event that has just ended, if one has; and the last take of its action.
#[derive(Drop)]
pub struct SessionNotes {
    pub outers: Vec<Outer>,
    pub ended: Option<Opened>,
    pub taken: Option<Change>,
}

// Before an action has its number it has taken nothing.
fn in_action(action: u64, taken: Option<Change>) -> Option<Change>
    ensures { result ≡ in_action action taken }
{
    if action == 0 { None } else { taken }
}

fn taken_behind(entry: &Entry, taken: Option<Change>) -> Option<Change>
    ensures { result ≡ taken_behind entry.now taken }
{
    match *entry {
        Entry::Take { row, version } => Some(Change { row, version }),
        _ => taken,
    }
}

fn ended_behind(entry: &Entry, innermost: Option<Opened>, ended: Option<Opened>) -> Option<Opened>
    ensures { result ≡ ended_behind entry.now innermost ended }
{
    match entry {
        Entry::End { .. } => innermost,
        Entry::Start { .. }
        | Entry::Settle
        | Entry::Connect { .. }
        | Entry::Act { .. }
        | Entry::Query
        | Entry::Error { .. } => None,
        _ => ended,
    }
}

impl SessionNotes {
    /// Of a session that has done nothing. It takes no memory.
    pub fn new(alloc: Global) -> SessionNotes
        ensures { AreNotesOf fresh None result }
    {
        SessionNotes {
            outers: Vec::new(alloc),
            ended: None,
            taken: None,
        }
    }

    /// What the session took last in the action of this number.
    pub fn source(&self, action: u64) -> Option<Change>
        ensures { result ≡ in_action action self.now.taken }
    {
        in_action(action, self.taken)
    }

    /// One entry more, where this was the innermost open event before it, and this the action of its line.
    pub fn note(
        &mut self,
        line: &Line,
        innermost: Option<Opened>,
        action: u64,
        entry: &Entry,
    ) -> Result<(), NoMemory>
        ensures { (left context : Context) → (taken : Option Change) → AreNotesOf left taken self.old
            → StepsFrom left context entry.now → innermost ≡ first_of context.opened
            → OnOk result (AreNotesOf (noted (subject_of line.now) context entry.now)
            (taken_behind entry.now (in_action action taken)) self.new) }
    {
        let taken = taken_behind(entry, in_action(action, self.taken));
        let ended = ended_behind(entry, innermost, self.ended);
        note_outers(&mut self.outers, line, innermost, entry)?;
        self.taken = taken;
        self.ended = ended;
        Ok(())
    }
}
