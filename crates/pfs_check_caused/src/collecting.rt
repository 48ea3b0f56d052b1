//! What the entries of a report give of causes, collected by one walk.

ghost use Rattle.std.specs.Prelude.{[]};
ghost use Rattle.pfs_check_causes.specs.CauseIndexes.{AreNoted};

use crate::NoMemory;
use pfs_check_causes::CauseGivens;
use pfs_check_walk::{Spot, Track, Visit};
use pfs_event::Entry;
use pfs_model::Line;
use std::alloc::Global;

/// Collects what each entry gives, and asks nothing of it.
#[derive(Drop)]
pub(crate) struct Collecting {
    pub alloc: Global,
    pub givens: CauseGivens,
}

impl Collecting {
    /// Of no entries. It takes no memory.
    pub(crate) fn new(alloc: Global) -> Collecting
        ensures { AreNoted [] result.givens }
    {
        Collecting {
            alloc,
            givens: CauseGivens::new(alloc),
        }
    }
}

impl Visit for Collecting {
    ghost use Rattle.pfs_check_causes.specs.CauseIndexes.{AreNoted};
    ghost use Rattle.pfs_check_seen.specs.SeenRules.{in_order};

    ghost rule = { λ case found earlier place. Unit {0} };

    ghost knows = { λ visitor case found earlier. AreNoted (in_order earlier) visitor.givens };

    fn visit<T: Track>(
        &mut self,
        spot: Spot,
        _line: &Line,
        _track: &T,
        entry: &Entry,
    ) -> Result<bool, NoMemory> {
        self.givens
            .note(self.alloc, spot.phase, spot.session, entry)?;
        Ok(true)
    }
}
