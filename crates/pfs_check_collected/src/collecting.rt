//! The changes of all entries, collected by one walk.

use crate::NoMemory;
use crate::collected::Collected;
use crate::sessions::{keep_notes, take_notes};
use pfs_check_amounts::EventTerms;
use pfs_check_contents::HeldAmounts;
use pfs_check_made::{Here, TagWords, made_of, note_held};
use pfs_check_notes::SessionNotes;
use pfs_check_walk::{Spot, Track, Visit};
use pfs_event::Entry;
use pfs_model::Line;
use std::alloc::Global;
use std::collections::BTreeMap;

/// Collects the change of each entry, and asks nothing of it.
#[derive(Drop)]
pub(crate) struct Collecting {
    pub alloc: Global,
    pub terms: EventTerms,
    pub tags: TagWords,
    pub notes: BTreeMap<u64, SessionNotes>,
    pub held: HeldAmounts,
    pub collected: Collected,
}

impl Visit for Collecting {
    ghost use Rattle.pfs_check_collected.specs.CollectedChanges.{Knows, given_in};

    ghost rule = { λ case found earlier place. Unit {0} };

    ghost knows = { λ visitor case found earlier. Knows (given_in case found) earlier visitor };

    fn visit<T: Track>(
        &mut self,
        spot: Spot,
        line: &Line,
        track: &T,
        entry: &Entry,
    ) -> Result<bool, NoMemory> {
        let innermost = track.innermost();
        let action = track.action();
        let drawn = track.drawn();
        let here = Here {
            session: spot.session,
            action,
            drawn,
            innermost,
        };
        let mut notes = take_notes(self.alloc, &mut self.notes, spot.session);
        let made = made_of(&self.terms, &self.tags, &self.held, &notes, here, entry);
        note_held(
            &mut self.held,
            &self.terms,
            spot.session,
            notes.ended,
            entry,
        )?;
        notes.note(line, innermost, action, entry)?;
        keep_notes(&mut self.notes, spot.session, notes)?;
        self.collected.put(made)?;
        Ok(true)
    }
}
