//! The tickets of the long histories, asked of a report.

ghost use Rattle.std.specs.Prelude.{◌≡◌, [], IfOk};
ghost use Rattle.pfs_check_cut.specs.CutReports.{phases_by};
ghost use Rattle.pfs_check_faults.specs.declared.rules.Rule.TheVariants as rules;
ghost use Rattle.pfs_check_faults.specs.Judgements.{Keeps};
ghost use Rattle.pfs_check_faults.specs.ReportCases.{Case, Findings, entries_of};
ghost use Rattle.pfs_check_tickets.specs.PutCounts.{AreCounted};
ghost use Rattle.pfs_check_tickets.specs.RisingPuts.{AreTicketsOf};
ghost use Rattle.pfs_check_tickets.specs.TicketRules.{AreTicketsJudged};

use crate::NoMemory;
use crate::asking::Asking;
use crate::collecting::Collecting;
use crate::showing::ShownPuts;
use pfs_check_causes::laws::phases_rise;
use pfs_check_cut::CutPhase;
use pfs_check_visits::{ask_report, visit_report};
use pfs_journal::ReportParts;
use std::alloc::Global;

/// What is found of the tickets of a report.
#[derive(Clone, Copy, Debug, PartialEq, Eq)]
pub enum TicketRule {
    /// They are right.
    Kept,
    /// The first line with a put whose ticket isn't, counted from 1.
    Wrong(u64),
}

// What all entries give of tickets.
fn collect_tickets(
    alloc: Global,
    cuts: &[CutPhase],
    report: &ReportParts,
) -> Result<Collecting, NoMemory>
    ensures { (case : Case) → (found : Findings) → found.blocks ≡ phases_by cuts.now report.now.phases
        → Keeps rules.Shape case found
        → IfOk result (λ known. AreCounted (entries_of found) known.counts
        × AreTicketsOf (entries_of found) known.tickets) }
{
    phases_rise();
    let mut collecting = Collecting::new(alloc);
    let _visited = visit_report(alloc, &mut collecting, cuts, report)?;
    Ok(collecting)
}

/// Asks the tickets of a report that is cut at these places: those of a kind stand at their places, each once from 0 on
/// phase by phase, rise along a session, and replace no greater one. Err where memory runs out.
pub fn judge_tickets(
    alloc: Global,
    cuts: &[CutPhase],
    report: &ReportParts,
) -> Result<TicketRule, NoMemory>
    ensures { (case : Case) → (found : Findings) → case.report ≡ report.now
        → found.blocks ≡ phases_by cuts.now report.now.phases → Keeps rules.Shape case found
        → IfOk result (AreTicketsJudged case found) }
{
    let Collecting { counts, tickets } = collect_tickets(alloc, cuts, report)?;
    let mut asking = Asking {
        counts,
        tickets,
        shown: ShownPuts::new(alloc),
    };
    let line = ask_report(alloc, &mut asking, cuts, report)?;
    match line {
        None => Ok(TicketRule::Kept),
        Some(line) => Ok(TicketRule::Wrong(line)),
    }
}
