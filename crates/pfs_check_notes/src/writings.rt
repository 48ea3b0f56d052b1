//! Events as puts find them.

ghost use Rattle.std.specs.Prelude.{◌≡◌, Option};
ghost use Rattle.pfs_model.specs.Contexts.{Context, first_of};
ghost use Rattle.pfs_model.specs.declared.changes.Change.{Change};
ghost use Rattle.pfs_check_notes.specs.SessionNotes.{AreNotesOf, IsWritingTold};

use crate::notes::SessionNotes;
use crate::outers::{innermost_outer, next_outer};
use pfs_check_amounts::Writing;
use pfs_model::Opened;

/// The event that a put writes: the one that has just ended, where the session has drawn so many numbers, or else the
/// innermost open one, which has just started; None where there is none.
pub fn writing_of(notes: &SessionNotes, innermost: Option<Opened>, drawn: u64) -> Option<Writing>
    ensures { (context : Context) → (taken : Option Change) → AreNotesOf context taken notes.now
        → innermost ≡ first_of context.opened → drawn ≡ context.drawn → IsWritingTold context result }
{
    let outers = notes.outers.as_slice();
    if let Some(event) = notes.ended {
        return Some(Writing {
            event,
            outer: innermost_outer(outers),
            last: Some(drawn),
        });
    }
    match innermost {
        Some(event) => {
            let outer = if event.verdict.is_let_through() {
                next_outer(outers)
            } else {
                innermost_outer(outers)
            };
            Some(Writing {
                event,
                outer,
                last: None,
            })
        }
        None => None,
    }
}
