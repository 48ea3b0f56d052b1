//! The contents of rows of which all versions are made.

ghost use Rattle.std.specs.Prelude.{List, MatchOption};
ghost use Rattle.pfs_model.specs.Contents.{Given};
ghost use Rattle.pfs_model.specs.EntryPlaces.{Placed};
ghost use Rattle.pfs_check_contents.specs.PlacedChanges.{AreMadeOf};
ghost use Rattle.pfs_law_made.specs.MadeContents.{IsKeptAsMade};
ghost use Rattle.pfs_check_reached.specs.MadeWords.{TellsMade};
ghost use Rattle.pfs_check_reached.specs.ReachedChanges.{LeavesOut};

use crate::reached::Reached;
use pfs_check_contents::{RowChange, Shelf};

/// What is made of rows, as contents, where all changes are made; None where one isn't.
pub fn shelf_of(reached: Reached, changes: &[RowChange]) -> Option<Shelf>
    ensures { MatchOption result (LeavesOut changes.now reached.kept)
        (λ shelf. (given : Given) → (all : List Placed) → AreMadeOf given all changes.now
        → TellsMade given all reached → IsKeptAsMade given all shelf) }
{
    for one in changes {
        if reached.told(one.row, one.version).is_none() {
            return None;
        }
    }
    Some(Shelf { kept: reached.kept })
}
