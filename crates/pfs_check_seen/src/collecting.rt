//! What the entries of a report give, collected by one walk.

ghost use Rattle.std.specs.Prelude.{[]};
ghost use Rattle.pfs_check_floors.specs.CollectedGivens.{AreCollected};

use crate::NoMemory;
use pfs_check_floors::Collected;
use pfs_check_walk::{Spot, Track, Visit};
use pfs_event::Entry;
use pfs_model::Line;
use std::alloc::Global;

/// Collects what each entry gives, and asks nothing of it.
#[derive(Drop)]
pub(crate) struct Collecting {
    pub collected: Collected,
}

impl Collecting {
    /// Of no entries. It takes no memory.
    pub(crate) fn new(alloc: Global) -> Collecting
        ensures { AreCollected [] result.collected }
    {
        Collecting {
            collected: Collected::new(alloc),
        }
    }
}

impl Visit for Collecting {
    ghost use Rattle.pfs_check_floors.specs.CollectedGivens.{AreCollected};
    ghost use Rattle.pfs_check_seen.specs.SeenRules.{in_order};

    ghost rule = { λ case found earlier place. Unit {0} };

    ghost knows = { λ visitor case found earlier. AreCollected (in_order earlier) visitor.collected };

    fn visit<T: Track>(
        &mut self,
        spot: Spot,
        _line: &Line,
        track: &T,
        entry: &Entry,
    ) -> Result<bool, NoMemory> {
        let action = track.action();
        self.collected.note(spot.phase, action, entry)?;
        Ok(true)
    }
}
