//! Where events are brought, asked of a report.

ghost use Rattle.std.specs.Prelude.{◌≡◌, IfOk};
ghost use Rattle.pfs_check_cut.specs.CutReports.{phases_by};
ghost use Rattle.pfs_check_faults.specs.declared.rules.Rule.TheVariants as rules;
ghost use Rattle.pfs_check_faults.specs.Judgements.{Keeps};
ghost use Rattle.pfs_check_faults.specs.ReportCases.{Case, Findings, entries_of, flags_in};
ghost use Rattle.pfs_check_brought.specs.BroughtRules.{AreDuesJudged, StopsOwing};

use crate::NoMemory;
use crate::bringing::{Bringing, Stop};
use pfs_check_cut::CutPhase;
use pfs_check_line_numbers::{behind, entry_line};
use pfs_check_verdicts::collect_flags;
use pfs_check_visits::visit_report;
use pfs_classes::Setting;
use pfs_journal::ReportParts;
use std::alloc::Global;

/// What is found of where the events of a report are brought.
#[derive(Clone, Copy, Debug, PartialEq, Eq)]
pub enum DueRule {
    /// Each to all places that its flags ask for, and to no other.
    Kept,
    /// The first line on which that isn't so, counted from 1.
    Wrong(u64),
}

// The line of a stop: as many behind that of its event as it stands behind the event.
fn stop_line(report: &ReportParts, stop: Stop) -> Result<DueRule, NoMemory>
    ensures { (case : Case) → (found : Findings) → case.report ≡ report.now
        → Keeps rules.Shape case found → StopsOwing (flags_in case found) (entries_of found) stop
        → IfOk result (AreDuesJudged case found) }
{
    let place = entry_line(report, stop.event)?;
    match place {
        Some(begins) => {
            let lines = stop.at.saturating_sub(stop.event);
            let line = behind(begins, lines)?;
            Ok(DueRule::Wrong(line))
        }
        None => Ok(DueRule::Kept),
    }
}

/// Asks where the events of a report are brought that is cut at these places, and is one of a script with this setting:
/// behind a start its current place is due, behind an end its summary row, its digest's row, its current place, its
/// history and its long history, each where its flags ask for it. Err where memory runs out.
pub fn judge_dues(
    alloc: Global,
    setting: &Setting,
    cuts: &[CutPhase],
    report: &ReportParts,
) -> Result<DueRule, NoMemory>
    ensures { (case : Case) → (found : Findings) → case.setting ≡ setting.now → case.report ≡ report.now
        → found.blocks ≡ phases_by cuts.now report.now.phases → Keeps rules.Shape case found
        → IfOk result (AreDuesJudged case found) }
{
    let flags = collect_flags(alloc, setting, cuts, report)?;
    let mut bringing = Bringing::new(alloc, flags);
    let _visited = visit_report(alloc, &mut bringing, cuts, report)?;
    let stop = bringing.stopped();
    match stop {
        Some(stop) => stop_line(report, stop),
        None => Ok(DueRule::Kept),
    }
}
