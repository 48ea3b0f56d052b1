//! The deeds of all entries, collected by one walk.

ghost use Rattle.std.specs.Prelude.{[]};
ghost use Rattle.pfs_check_deeds.specs.PlacedDeeds.{AreDeedsOf};

use crate::NoMemory;
use crate::deeds::{deed_in, one_more, push_deed};
use pfs_check_falls::PlacedDeed;
use pfs_check_walk::{Spot, Track, Visit};
use pfs_event::Entry;
use pfs_model::Line;
use std::alloc::Global;

/// Collects the deed of each entry, and asks nothing of it.
#[derive(Drop)]
pub(crate) struct Collecting {
    pub deeds: Vec<PlacedDeed>,
    /// How many entries there were.
    pub count: u64,
}

impl Collecting {
    /// Of no entries. It takes no memory.
    pub(crate) fn new(alloc: Global) -> Collecting
        ensures { AreDeedsOf [] result }
    {
        Collecting {
            deeds: Vec::new(alloc),
            count: 0,
        }
    }
}

impl Visit for Collecting {
    ghost use Rattle.pfs_check_deeds.specs.PlacedDeeds.{AreDeedsOf, in_order};

    ghost rule = { λ case found earlier place. Unit {0} };

    ghost knows = { λ visitor case found earlier. AreDeedsOf (in_order earlier) visitor };

    fn visit<T: Track>(
        &mut self,
        _spot: Spot,
        _line: &Line,
        track: &T,
        entry: &Entry,
    ) -> Result<bool, NoMemory> {
        let action = track.action();
        let deed = deed_in(self.count, action, entry);
        let count = one_more(self.count)?;
        push_deed(&mut self.deeds, deed)?;
        self.count = count;
        Ok(true)
    }
}
