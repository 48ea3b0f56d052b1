//! The changes so far.

ghost use Rattle.std.specs.Prelude.{◌++◌, ◌∷◌, [], List, OnOk};
ghost use Rattle.pfs_model.specs.Contents.{Given};
ghost use Rattle.pfs_model.specs.EntryPlaces.{Placed};
ghost use Rattle.pfs_check_made.specs.MadeChanges.{IsMade};
ghost use Rattle.pfs_check_collected.specs.CollectedChanges.{AreCollected};

use crate::NoMemory;
use pfs_check_contents::RowChange;
use pfs_check_made::Made;
use std::alloc::Global;

/// The changes of the entries so far, as long as all of them are known.
#[derive(Drop)]
pub struct Collected {
    pub changes: Vec<RowChange>,
    pub is_known: bool,
}

impl Collected {
    /// Of no entries. It takes no memory.
    pub(crate) fn new(alloc: Global) -> Collected
        ensures { (given : Given) → AreCollected given [] result }
    {
        Collected {
            changes: Vec::new(alloc),
            is_known: true,
        }
    }

    /// What one entry more makes. Err where memory runs out.
    pub(crate) fn put(&mut self, made: Made) -> Result<(), NoMemory>
        ensures { (given : Given) → (all : List Placed) → (place : Placed)
            → AreCollected given all self.old → IsMade given place made
            → OnOk result (AreCollected given (all ++ place ∷ []) self.new) }
    {
        match made {
            Made::Nothing => Ok(()),
            Made::Changed(one) => {
                self.changes.push(one)?;
                Ok(())
            }
            Made::Unknown => {
                self.is_known = false;
                Ok(())
            }
        }
    }
}
