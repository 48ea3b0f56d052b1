//! What the entries of a report give of tickets, collected by one walk.

ghost use Rattle.std.specs.Prelude.{[]};
ghost use Rattle.pfs_check_tickets.specs.PutCounts.{AreCounted};
ghost use Rattle.pfs_check_tickets.specs.RisingPuts.{AreTicketsOf};

use crate::NoMemory;
use crate::counting::LongCounts;
use crate::puts::put_in;
use crate::rising::LongTickets;
use pfs_check_walk::{Spot, Track, Visit};
use pfs_event::Entry;
use pfs_model::Line;
use std::alloc::Global;

/// Collects what each entry gives, and asks nothing of it.
#[derive(Drop)]
pub(crate) struct Collecting {
    pub counts: LongCounts,
    pub tickets: LongTickets,
}

impl Collecting {
    /// Of no entries. It takes no memory.
    pub(crate) fn new(alloc: Global) -> Collecting
        ensures counts { AreCounted [] result.counts }
        ensures tickets { AreTicketsOf [] result.tickets }
    {
        Collecting {
            counts: LongCounts::new(alloc),
            tickets: LongTickets::new(alloc),
        }
    }
}

impl Visit for Collecting {
    ghost use Rattle.pfs_check_tickets.specs.PutCounts.{AreByPhases, AreCounted};
    ghost use Rattle.pfs_check_tickets.specs.RisingPuts.{AreTicketsOf};

    ghost rule = { λ case found earlier place. Unit {0} };

    ghost knows = { λ visitor case found earlier. (AreByPhases earlier → AreCounted earlier visitor.counts)
        × AreTicketsOf earlier visitor.tickets };

    fn visit<T: Track>(
        &mut self,
        spot: Spot,
        line: &Line,
        _track: &T,
        entry: &Entry,
    ) -> Result<bool, NoMemory> {
        let put = put_in(line, entry);
        self.counts.note(spot.phase, put)?;
        self.tickets.note(entry)?;
        Ok(true)
    }
}
