//! The entries of a line, by places of its journal.

ghost use Rattle.std.specs.Prelude.{◌≡◌, ◌≤◌, length};
ghost use Rattle.pfs_check_walk.specs.Walks.{entries_between};

use pfs_journal::EntryList;

/// From a place of a journal to the one behind.
#[derive(Clone, Copy, Debug, PartialEq, Eq)]
pub(crate) struct Part {
    pub from: usize,
    pub to: usize,
}

/// The part between two places, whatever these are: one without entries where none stand between them.
pub(crate) fn part_between(entries: &EntryList, start: usize, end: usize) -> Part
    ensures order { result.from ≤ result.to }
    ensures within { result.to ≤ length entries.now }
    ensures same { entries_between entries.now result.from result.to ≡ entries_between entries.now start end }
{
    let count = entries.count();
    if end <= start || count <= start {
        return Part { from: 0, to: 0 };
    }
    if count < end {
        return Part {
            from: start,
            to: count,
        };
    }
    Part {
        from: start,
        to: end,
    }
}
