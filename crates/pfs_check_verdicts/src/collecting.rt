//! The sets of a report, collected by one walk.

use crate::NoMemory;
use crate::flags::{PrintedFlags, note_set};
use pfs_check_walk::{Spot, Track, Visit};
use pfs_event::Entry;
use pfs_model::Line;

/// Collects the set that each entry is, and asks nothing of it.
#[derive(Drop)]
pub(crate) struct CollectingFlags {
    pub flags: PrintedFlags,
}

impl Visit for CollectingFlags {
    ghost use Rattle.pfs_check_verdicts.specs.PrintedSets.{AreFlagsSoFar};

    ghost rule = { λ case found earlier place. Unit {0} };

    ghost knows = { λ visitor case found earlier. AreFlagsSoFar case.setting earlier visitor.flags };

    fn visit<T: Track>(
        &mut self,
        _spot: Spot,
        _line: &Line,
        _track: &T,
        entry: &Entry,
    ) -> Result<bool, NoMemory> {
        note_set(&mut self.flags.sets, entry)?;
        Ok(true)
    }
}
