//! What the entries of a report give, collected by one walk, and how many they are.

ghost use Rattle.std.specs.Prelude.{◌≡◌, [], IfOk, OnOk};
ghost use Rattle.pfs_check_cut.specs.CutReports.{phases_by};
ghost use Rattle.pfs_check_ends.specs.EndSights.{AreFewSights, IsFew};
ghost use Rattle.pfs_check_faults.specs.ReportCases.{Case, Findings, entries_of};
ghost use Rattle.pfs_check_floors.specs.CollectedGivens.{AreCollected};
ghost use Rattle.pfs_model.specs.Chains.{AreChained, row_change, word_change};

use crate::NoMemory;
use pfs_check_cut::CutPhase;
use pfs_check_floors::{Collected, Sights};
use pfs_check_visits::{Visited, visit_report};
use pfs_check_walk::{Spot, Track, Visit};
use pfs_event::Entry;
use pfs_journal::ReportParts;
use pfs_model::Line;
use std::alloc::{AllocError, Global};

/// The lock words of so many versions and more don't fit.
const TOO_MANY: u64 = 4_611_686_018_427_387_904;

/// Collects what each entry gives, and asks nothing of it.
#[derive(Drop)]
pub(crate) struct Collecting {
    pub collected: Collected,
}

impl Collecting {
    // Of no entries. It takes no memory.
    fn new(alloc: Global) -> Collecting
        ensures { AreCollected [] result.collected }
    {
        Collecting {
            collected: Collected::new(alloc),
        }
    }
}

impl Visit for Collecting {
    ghost use Rattle.pfs_check_floors.specs.CollectedGivens.{AreCollected};
    ghost use Rattle.pfs_check_seen.specs.SeenRules.{in_order};

    ghost rule = { λ case found earlier place. Unit {0} };

    ghost knows = { λ visitor case found earlier. AreCollected (in_order earlier) visitor.collected };

    fn visit<T: Track>(
        &mut self,
        spot: Spot,
        _line: &Line,
        track: &T,
        entry: &Entry,
    ) -> Result<bool, NoMemory> {
        let action = track.action();
        self.collected.note(spot.phase, action, entry)?;
        Ok(true)
    }
}

// Err where so many entries were visited that a lock word of their number doesn't fit: no memory holds so many.
fn check_few(visited: Visited) -> Result<(), NoMemory>
    ensures { OnOk result (IsFew visited) }
{
    match visited {
        Visited::Kept(count) => {
            if count < TOO_MANY {
                Ok(())
            } else {
                Err(AllocError)
            }
        }
        Visited::Lacking(_) => Ok(()),
    }
}

/// What is known of the rows and the switch words of a report that is cut at these places. Err where memory runs out.
pub(crate) fn collect_ends(
    alloc: Global,
    cuts: &[CutPhase],
    report: &ReportParts,
) -> Result<Sights, NoMemory>
    ensures { (case : Case) → (found : Findings) → found.blocks ≡ phases_by cuts.now report.now.phases
        → AreChained row_change (entries_of found) → AreChained word_change (entries_of found)
        → IfOk result (AreFewSights (entries_of found)) }
{
    let mut collecting = Collecting::new(alloc);
    let visited = visit_report(alloc, &mut collecting, cuts, report)?;
    check_few(visited)?;
    collecting.collected.into_sights(alloc)
}
