//! The ends of a report's phases.

ghost use Rattle.std.specs.Prelude.{◌≡◌, ◌<◌, ◌^◌, IfOk};
ghost use Rattle.pfs_check_contents.specs.KeptContents.{IsShelfOf};
ghost use Rattle.pfs_check_cut.specs.CutReports.{phases_by};
ghost use Rattle.pfs_check_ends.specs.StandingEnds.{Shows};
ghost use Rattle.pfs_check_faults.specs.declared.rules.Rule.TheVariants as rules;
ghost use Rattle.pfs_check_faults.specs.Judgements.{KeepBefore};
ghost use Rattle.pfs_check_faults.specs.ReportCases.{Case, Findings, entries_of, flags_in, terms_in};
ghost use Rattle.pfs_check_finals.specs.EndTables.{AreEndsOf};
ghost use Rattle.pfs_check_verdicts.specs.PrintedSets.{GivesFlags};
ghost use Rattle.pfs_runs.specs.Rules.{given_by};
ghost use Rattle.pfs_runs.specs.Runs.{all_blocks};

use crate::NoMemory;
use crate::collecting::collect_ends;
use pfs_check_contents::Shelf;
use pfs_check_cut::CutPhase;
use pfs_check_floors::Sights;
use pfs_check_verdicts::PrintedFlags;
use pfs_classes::Setting;
use pfs_journal::ReportParts;
use std::alloc::Global;

/// What each row and each switch word of a report shows at the end of each phase.
#[derive(Drop)]
pub struct Ends {
    /// How often rows were changed up to each phase's end, and words set; and the releases of rows.
    pub sights: Sights,
    /// The contents of rows at their versions.
    pub shelf: Shelf,
    /// The flags of words at theirs.
    pub flags: PrintedFlags,
}

// The flags of the consumers at first have 16 bits.
fn fits(consumers: u16)
    ensures { consumers < 2 ^ 16 }
{
    let _ = consumers;
}

/// Who stands for the ends of a report that is cut at these places, of a script with this setting, with the contents of
/// its rows and the flags of its switch words. Err where memory runs out.
pub fn ends_of(
    alloc: Global,
    setting: &Setting,
    cuts: &[CutPhase],
    report: &ReportParts,
    shelf: Shelf,
    flags: PrintedFlags,
) -> Result<Ends, NoMemory>
    ensures { (case : Case) → (found : Findings) → case.setting ≡ setting.now
        → found.blocks ≡ phases_by cuts.now report.now.phases → KeepBefore rules.Tables case found
        → IsShelfOf (given_by (terms_in case found) (all_blocks found.blocks)) (entries_of found) shelf
        → GivesFlags (flags_in case found) flags
        → IfOk result (λ ends. AreEndsOf case found (Shows ends)) }
{
    fits(setting.consumers);
    let sights = collect_ends(alloc, cuts, report)?;
    Ok(Ends {
        sights,
        shelf,
        flags,
    })
}
