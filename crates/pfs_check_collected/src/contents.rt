//! All changes of a report, and the contents that they make.

ghost use Rattle.std.specs.Prelude.{◌≡◌, IfOk};
ghost use Rattle.pfs_check_amounts.specs.EventTerms.{GivesEvents};
ghost use Rattle.pfs_check_cut.specs.CutReports.{phases_by};
ghost use Rattle.pfs_check_faults.specs.declared.rules.Rule.TheVariants as rules;
ghost use Rattle.pfs_check_faults.specs.Judgements.{Keeps};
ghost use Rattle.pfs_check_faults.specs.ReportCases.{Case, Findings, entries_of};
ghost use Rattle.pfs_check_made.specs.TagWords.{GivesTags};
ghost use Rattle.pfs_check_collected.specs.CollectedChanges.{AreCollected, given_in};

use crate::NoMemory;
use crate::collected::Collected;
use crate::collecting::Collecting;
use pfs_check_amounts::EventTerms;
use pfs_check_contents::HeldAmounts;
use pfs_check_cut::CutPhase;
use pfs_check_made::TagWords;
use pfs_check_visits::visit_report;
use pfs_journal::ReportParts;
use std::alloc::Global;
use std::collections::BTreeMap;

/// All changes of the rows of a report that is cut at these places, as long as all of them are known. Err where memory
/// runs out.
pub fn collect_changes(
    alloc: Global,
    terms: EventTerms,
    tags: TagWords,
    cuts: &[CutPhase],
    report: &ReportParts,
) -> Result<Collected, NoMemory>
    ensures { (case : Case) → (found : Findings) → case.report ≡ report.now
        → found.blocks ≡ phases_by cuts.now report.now.phases → Keeps rules.Shape case found
        → Keeps rules.Actions case found → GivesEvents (given_in case found) terms → GivesTags (given_in case found) tags
        → IfOk result (AreCollected (given_in case found) (entries_of found)) }
{
    pfs_law_contexts::laws::contexts();
    pfs_law_contexts::laws::sources();
    pfs_law_orderly::laws::held();
    let mut collecting = Collecting {
        alloc,
        terms,
        tags,
        notes: BTreeMap::new(alloc),
        held: HeldAmounts::new(alloc),
        collected: Collected::new(alloc),
    };
    let _visited = visit_report(alloc, &mut collecting, cuts, report)?;
    Ok(collecting.collected)
}
