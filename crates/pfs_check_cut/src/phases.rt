//! A report, cut by the phases of its script.

ghost use Rattle.std.specs.Prelude.{ℕ, List};
ghost use Rattle.pfs_model.specs.EntryPlaces.{Block};
ghost use Rattle.pfs_check_cut.specs.CutReports.{IsPhaseCut, IsReportCut};
ghost use Rattle.pfs_check_cut.specs.Sessions.{AreTrailsOf};

use crate::NoMemory;
use crate::blocks::{CutPhase, ShapeFault, cut_blocks};
use pfs_check_line_numbers::{behind, behind_results};
use pfs_check_trail::Trail;
use pfs_journal::{PhaseParts, ReportParts};
use pfs_script::Phase;
use std::alloc::Global;
use std::collections::BTreeMap;

// Cuts a phase whose `phase` line this is; with the line behind it.
fn cut_phase(
    alloc: Global,
    trails: &mut BTreeMap<u64, Trail>,
    number: u64,
    line: u64,
    phase: &Phase,
    report: &PhaseParts,
) -> Result<(CutPhase, u64), ShapeFault>
    ensures { (earlier : List Block) → AreTrailsOf earlier trails.old
        → IsPhaseCut earlier number line phase.now report.now result trails.new }
{
    if report.number != number {
        return Err(ShapeFault::Line(line));
    }
    let first = behind(line, 1)?;
    let saids = phase.blocks.as_slice();
    let reports = report.blocks.as_slice();
    match cut_blocks(alloc, trails, number, first, saids, reports) {
        Ok((cuts, last)) => {
            let end = behind_results(last, report)?;
            Ok((CutPhase { blocks: cuts }, end))
        }
        Err(fault) => Err(fault),
    }
}

/// Cuts a report by the phases of its script: the blocks of each phase, or the first line that no report of the script
/// has there. What is missing fails at the line that stands there instead. Err is NoMemory where memory runs out.
pub fn cut_report(
    alloc: Global,
    phases: &[Phase],
    report: &ReportParts,
) -> Result<Vec<CutPhase>, ShapeFault>
    ensures { IsReportCut phases.now report.now result }
{
    let reports = report.phases.as_slice();
    let mut trails = BTreeMap::new(alloc);
    let mut cuts = Vec::new(alloc);
    let mut line: u64 = 2;
    for (place, phase) in phases.iter().enumerate() {
        if place >= reports.len() {
            return Err(ShapeFault::Line(line));
        }
        let number = place as u64 + 1;
        match cut_phase(
            alloc,
            &mut trails,
            number,
            line,
            phase,
            reports[place].parts(),
        ) {
            Ok((cut, end)) => {
                cuts.push(cut)?;
                line = end;
            }
            Err(fault) => return Err(fault),
        }
    }
    if phases.len() < reports.len() {
        return Err(ShapeFault::Line(line));
    }
    Ok(cuts)
}
