//! What the sessions of a report must have seen, entry by entry.

ghost use Rattle.std.specs.Prelude.{◌≡◌, ◌∷◌, ◌++◌, List, OnOk};
ghost use Rattle.pfs_model.specs.Chains.{word_change};
ghost use Rattle.pfs_model.specs.EntryPlaces.{Placed};
ghost use Rattle.pfs_model.specs.Floors.{IsThere};
ghost use Rattle.pfs_model.specs.SetupFlags.{loads_of};
ghost use Rattle.pfs_check_floors.specs.KnownFloors.{Tells};
ghost use Rattle.pfs_check_floors.specs.RowNames.{AreSightsOf};
ghost use Rattle.pfs_check_floors.specs.WordLoads.{loads_list};

use crate::NoMemory;
use crate::floors::Floors;
use crate::loads::{Loads, note_loads};
use crate::rows::{RowFloors, note_rows};
use pfs_event::Entry;

/// The floors of the rows and of the switch words of a report.
#[derive(Debug, Drop)]
pub struct Sights {
    pub rows: RowFloors,
    pub words: Floors,
}

/// Whether the row or the switch word that a reading, a release or a load names is there.
pub fn is_there(entry: &Entry) -> bool
    ensures { Tells (IsThere entry.now) result }
{
    match *entry {
        Entry::Seen { row, .. } => row < 14242,
        Entry::Free { row, .. } => row < 14242,
        Entry::Saw { word, .. } => word < 160,
        _ => true,
    }
}

impl Sights {
    /// One entry more of a session, with the words that it names. Err where memory runs out.
    pub fn note(&mut self, session: u64, loads: &Loads, entry: &Entry) -> Result<(), NoMemory>
        ensures { OnOk result ((all : List Placed) → (earlier : List Placed) → (place : Placed)
            → place.session ≡ session → place.entry ≡ entry.now
            → loads_list loads.now ≡ loads_of place ++ word_change place.entry
            → AreSightsOf all earlier self.old → AreSightsOf all (place ∷ earlier) self.new) }
    {
        note_rows(&mut self.rows.floors.known, session, entry)?;
        note_loads(&mut self.words.known, session, loads)?;
        Ok(())
    }
}
