//! A rule asked of the entries of all blocks.

ghost use Rattle.std.specs.Prelude.{◌≡◌, ◌++◌, [], List, IfOk};
ghost use Rattle.pfs_model.specs.EntryPlaces.{Block, Placed, places_behind};
ghost use Rattle.pfs_check_cut.specs.CutReports.{blocks_by, phases_by};
ghost use Rattle.pfs_check_cut.specs.Sessions.{AreTrailsOf};
ghost use Rattle.pfs_check_faults.specs.ReportCases.{Case, Findings, entries_of};
ghost use Rattle.pfs_check_visits.specs.ReportVisits.{AreNumbersAsked, entries_by};
ghost use Rattle.pfs_check_visits.specs.Visits.{AreVisited};

use crate::NoMemory;
use crate::block_visits::visit_block;
use crate::tracks::SessionTrack;
use crate::visited::{Visited, plus};
use pfs_check_cut::{CutBlock, CutPhase};
use pfs_check_walk::{EventNumbers, Visit};
use pfs_journal::{BlockReport, ReportParts};
use std::alloc::Global;
use std::collections::BTreeMap;

// Asks it of the entries of the blocks of a phase, behind the blocks that the tracks have.
fn visit_blocks<V: Visit>(
    alloc: Global,
    visitor: &mut V,
    tracks: &mut BTreeMap<u64, SessionTrack>,
    cuts: &[CutBlock],
    reports: &[BlockReport],
) -> Result<Visited, NoMemory>
    ensures { (case : Case) → (found : Findings) → (earlier : List Placed) → (blocks : List Block)
        → AreTrailsOf blocks tracks.old → V.knows visitor.old case found earlier
        → IfOk result (AreVisited (V.rule case found) earlier (places_behind blocks (blocks_by cuts.now reports.now))
        (V.knows visitor.new case found) (AreTrailsOf (blocks ++ blocks_by cuts.now reports.now) tracks.new)) }
{
    let mut count: u64 = 0;
    for (place, cut) in cuts.iter().enumerate() {
        if place >= reports.len() {
            return Ok(Visited::Kept(count));
        }
        let report = &reports[place];
        let visited = visit_block(alloc, visitor, tracks, cut, report)?;
        match visited {
            Visited::Kept(more) => {
                let next = plus(count, more)?;
                count = next;
            }
            Visited::Lacking(at) => {
                let lacking = plus(count, at)?;
                return Ok(Visited::Lacking(lacking));
            }
        }
    }
    Ok(Visited::Kept(count))
}

/// Asks a rule of each entry of a report that is cut at these places, once and in the order of the report: how many
/// there are, where all keep it, or the place of the first that doesn't, counted from 0 over all journals. Err where
/// memory runs out.
pub fn visit_report<V: Visit>(
    alloc: Global,
    visitor: &mut V,
    cuts: &[CutPhase],
    report: &ReportParts,
) -> Result<Visited, NoMemory>
    ensures { (case : Case) → (found : Findings) → V.knows visitor.old case found []
        → IfOk result (AreVisited (V.rule case found) [] (entries_by cuts.now report.now)
        (V.knows visitor.new case found) (Unit {0})) }
{
    let reports = report.phases.as_slice();
    let mut tracks = BTreeMap::new(alloc);
    let mut count: u64 = 0;
    for (place, cut) in cuts.iter().enumerate() {
        if place >= reports.len() {
            return Ok(Visited::Kept(count));
        }
        let parts = reports[place].parts();
        let blocks = cut.blocks.as_slice();
        let printed = parts.blocks.as_slice();
        let visited = visit_blocks(alloc, visitor, &mut tracks, blocks, printed)?;
        match visited {
            Visited::Kept(more) => {
                let next = plus(count, more)?;
                count = next;
            }
            Visited::Lacking(at) => {
                let lacking = plus(count, at)?;
                return Ok(Visited::Lacking(lacking));
            }
        }
    }
    Ok(Visited::Kept(count))
}

/// Asks the numbers of events of all entries of a report that is cut at these places: MySQL's rule of EVENT_ID and
/// END_EVENT_ID (`EventNumbers`). Err where memory runs out.
pub fn visit_numbers(
    alloc: Global,
    cuts: &[CutPhase],
    report: &ReportParts,
) -> Result<Visited, NoMemory>
    ensures { (case : Case) → (found : Findings) → found.blocks ≡ phases_by cuts.now report.now.phases
        → IfOk result (AreNumbersAsked (entries_of found)) }
{
    let mut numbers = EventNumbers;
    let visited = visit_report(alloc, &mut numbers, cuts, report)?;
    Ok(visited)
}
