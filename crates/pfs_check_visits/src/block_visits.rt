//! A rule asked of the entries of a block.

ghost use Rattle.std.specs.Prelude.{◌++◌, ◌∷◌, [], List, IfOk};
ghost use Rattle.pfs_model.specs.Contexts.{Context, after, turned};
ghost use Rattle.pfs_model.specs.EntryPlaces.{Block, Placed, after_lines, placed_lines, placed_part};
ghost use Rattle.pfs_check_cut.specs.CutReports.{block_by};
ghost use Rattle.pfs_check_cut.specs.Sessions.{AreTrailsOf};
ghost use Rattle.pfs_check_faults.specs.ReportCases.{Case, Findings};
ghost use Rattle.pfs_check_parts.specs.Parts.{pieces};
ghost use Rattle.pfs_check_trail.specs.Trails.{IsTrailOf};
ghost use Rattle.pfs_check_walk.specs.Walks.{entries_between};
ghost use Rattle.pfs_check_visits.specs.ReportVisits.{block_places};
ghost use Rattle.pfs_check_visits.specs.Visits.{AreVisited};

use crate::NoMemory;
use crate::parts::part_between;
use crate::sessions::{keep_track, take_track};
use crate::tracks::SessionTrack;
use crate::visited::{Visited, plus};
use pfs_check_cut::CutBlock;
use pfs_check_walk::{Spot, Visit, visit_part};
use pfs_journal::{BlockReport, EntryList};
use pfs_model::Line;
use std::alloc::Global;
use std::collections::BTreeMap;

// Asks it of the entries of the next line.
fn visit_line<V: Visit>(
    visitor: &mut V,
    spot: Spot,
    track: &mut SessionTrack,
    line: &Line,
    entries: &EntryList,
    start: usize,
    end: usize,
) -> Result<Visited, NoMemory>
    ensures { (case : Case) → (found : Findings) → (earlier : List Placed) → (context : Context)
        → IsTrailOf context track.old → V.knows visitor.old case found earlier
        → IfOk result (AreVisited (V.rule case found) earlier
        (placed_part spot.phase spot.session line.now (turned context) (entries_between entries.now start end))
        (V.knows visitor.new case found)
        (IsTrailOf (after context line.now (entries_between entries.now start end)) track.new)) }
{
    track.turn();
    let part = part_between(entries, start, end);
    let lacking = visit_part(visitor, spot, line, track, entries, part.from, part.to)?;
    match lacking {
        None => Ok(Visited::Kept((part.to - part.from) as u64)),
        Some(at) => Ok(Visited::Lacking(at as u64)),
    }
}

// Asks it of the entries of lines whose parts end at these places.
fn visit_lines<V: Visit>(
    visitor: &mut V,
    spot: Spot,
    track: &mut SessionTrack,
    lines: &[Line],
    ends: &[usize],
    entries: &EntryList,
) -> Result<Visited, NoMemory>
    ensures { (case : Case) → (found : Findings) → (earlier : List Placed) → (context : Context)
        → IsTrailOf context track.old → V.knows visitor.old case found earlier
        → IfOk result (AreVisited (V.rule case found) earlier
        (placed_lines spot.phase spot.session context lines.now (pieces 0 ends.now entries.now))
        (V.knows visitor.new case found)
        (IsTrailOf (after_lines context lines.now (pieces 0 ends.now entries.now)) track.new)) }
{
    let mut start: usize = 0;
    let mut count: u64 = 0;
    for (place, line) in lines.iter().enumerate() {
        if place >= ends.len() {
            return Ok(Visited::Kept(count));
        }
        let end = ends[place];
        let visited = visit_line(visitor, spot, track, line, entries, start, end)?;
        match visited {
            Visited::Kept(more) => {
                let next = plus(count, more)?;
                count = next;
                start = end;
            }
            Visited::Lacking(at) => {
                let lacking = plus(count, at)?;
                return Ok(Visited::Lacking(lacking));
            }
        }
    }
    Ok(Visited::Kept(count))
}

/// Asks it of the entries of a block, behind the blocks that the tracks have.
pub(crate) fn visit_block<V: Visit>(
    alloc: Global,
    visitor: &mut V,
    tracks: &mut BTreeMap<u64, SessionTrack>,
    cut: &CutBlock,
    report: &BlockReport,
) -> Result<Visited, NoMemory>
    ensures { (case : Case) → (found : Findings) → (earlier : List Placed) → (blocks : List Block)
        → AreTrailsOf blocks tracks.old → V.knows visitor.old case found earlier
        → IfOk result (AreVisited (V.rule case found) earlier (block_places blocks (block_by cut.now report.now))
        (V.knows visitor.new case found) (AreTrailsOf (blocks ++ block_by cut.now report.now ∷ []) tracks.new)) }
{
    let spot = Spot {
        phase: cut.phase,
        session: cut.session,
    };
    let mut track = take_track(alloc, tracks, cut.session);
    let lines = cut.lines.as_slice();
    let ends = cut.ends.as_slice();
    let visited = visit_lines(visitor, spot, &mut track, lines, ends, &report.entries)?;
    keep_track(tracks, cut.session, track)?;
    Ok(visited)
}
