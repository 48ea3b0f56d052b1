//! The let-through events of a session that are open.

ghost use Rattle.std.specs.Prelude.{◌≡◌, ◌∷◌, drop, reverse, OnOk};
ghost use Rattle.pfs_model.specs.Contexts.{subject_of};
ghost use Rattle.pfs_check_notes.specs.SessionNotes.{first_outer, outers_behind};

use crate::NoMemory;
use pfs_check_amounts::Outer;
use pfs_check_trail::subject_in;
use pfs_event::Entry;
use pfs_model::{Line, Opened};

fn push_outer(outers: &mut Vec<Outer>, outer: Outer) -> Result<(), NoMemory>
    ensures { OnOk result (reverse outers.new.items ≡ outer ∷ reverse outers.old.items) }
{
    outers.push(outer)?;
    Ok(())
}

fn drop_outer(outers: &mut Vec<Outer>)
    ensures { reverse outers.new.items ≡ drop 1 (reverse outers.old.items) }
{
    outers.pop();
}

/// The innermost of them.
pub(crate) fn innermost_outer(outers: &[Outer]) -> Option<Outer>
    ensures { result ≡ first_outer (reverse outers.now) }
{
    match outers.last() {
        Some(outer) => Some(*outer),
        None => None,
    }
}

/// The one in which the innermost of them lies.
pub(crate) fn next_outer(outers: &[Outer]) -> Option<Outer>
    ensures { result ≡ first_outer (drop 1 (reverse outers.now)) }
{
    match outers.split_last() {
        Some((_, others)) => innermost_outer(others),
        None => None,
    }
}

/// One entry more, where this was the innermost open event before it.
pub(crate) fn note_outers(
    outers: &mut Vec<Outer>,
    line: &Line,
    innermost: Option<Opened>,
    entry: &Entry,
) -> Result<(), NoMemory>
    ensures { OnOk result (reverse outers.new.items
        ≡ outers_behind (subject_of line.now) innermost entry.now (reverse outers.old.items)) }
{
    match *entry {
        Entry::Start { event, verdict, .. } => match subject_in(line) {
            Some(subject) if verdict.is_let_through() => push_outer(
                outers,
                Outer {
                    kind: subject.kind,
                    number: event,
                },
            ),
            _ => Ok(()),
        },
        Entry::End { .. } => match innermost {
            Some(event) if event.verdict.is_let_through() => {
                drop_outer(outers);
                Ok(())
            }
            _ => Ok(()),
        },
        _ => Ok(()),
    }
}
