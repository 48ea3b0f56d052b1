//! The first seven rules, each asked behind those before it.

ghost use Rattle.std.specs.Prelude.{◌≡◌};
ghost use Rattle.pfs_check_cut.specs.CutReports.{phases_by};
ghost use Rattle.pfs_check_faults.specs.declared.rules.Rule.TheVariants as rules;
ghost use Rattle.pfs_check_faults.specs.Judgements.{KeepBefore, Keeps};
ghost use Rattle.pfs_check_faults.specs.ReportCases.{Case, Findings};
ghost use Rattle.pfs_check_faults.specs.ShapeFaults.{IsCut};
ghost use Rattle.pfs_check_grounds.specs.RuleAnswers.{IsAsked};
ghost use Rattle.pfs_check_numbers.specs.OrderAnswers.{AreOrdersOf, IsNumbersJudged};
ghost use Rattle.pfs_check_numbers.specs.declared.judging.NumbersRule.TheVariants as numbers;
ghost use Rattle.pfs_check_setup.specs.SetupRules.{AreFoundIn};
ghost use Rattle.pfs_check_versions.specs.VersionRules.{IsActionsJudged, IsChainJudged};
ghost use Rattle.pfs_check_versions.specs.declared.judging.ActionRule.TheVariants as acts;
ghost use Rattle.pfs_check_versions.specs.declared.judging.ChainRule.TheVariants as chains;

use crate::grounds::Stop;
use pfs_check_cut::{CutPhase, ShapeFault, cut_report};
use pfs_check_faults::Rule;
use pfs_check_numbers::{NumbersRule, judge_numbers};
use pfs_check_orders::Orders;
use pfs_check_seen::{SeenRule, judge_seen};
use pfs_check_setup::{SetupRule, judge_setup};
use pfs_check_verdicts::{VerdictRule, judge_verdicts};
use pfs_check_versions::{
    ActionRule, ActionsFound, ChainRule, Versions, judge_actions, judge_chain,
};
use pfs_classes::Setting;
use pfs_journal::ReportParts;
use pfs_script::Phase;
use std::alloc::Global;

// Asks the first rule: the blocks of the phases and their lines.
pub fn ask_shape(
    alloc: Global,
    phases: &[Phase],
    report: &ReportParts,
) -> Result<Vec<CutPhase>, Stop>
    ensures { (case : Case) → (found : Findings) → case.phases ≡ phases.now → case.report ≡ report.now
        → IsAsked rules.Shape case found
        (λ cuts. IsCut case.phases case.report (phases_by cuts.items case.report.phases)) result }
{
    pfs_check_faults::laws::cuts();
    let cut = cut_report(alloc, phases, report);
    match cut {
        Ok(cuts) => Ok(cuts),
        Err(ShapeFault::NoMemory) => Err(Stop::NoMemory),
        Err(ShapeFault::Line(line)) => Err(Stop::Wrong {
            rule: Rule::Shape,
            line,
        }),
    }
}

// Asks the second rule: the actions and their labels.
pub fn ask_actions(alloc: Global, report: &ReportParts) -> Result<ActionsFound, Stop>
    ensures { (case : Case) → (found : Findings) → case.report ≡ report.now → Keeps rules.Shape case found
        → IsAsked rules.Actions case found (λ actions. IsActionsJudged case found (acts.Kept actions)) result }
{
    let rule = judge_actions(alloc, report)?;
    match rule {
        ActionRule::Kept(actions) => Ok(actions),
        ActionRule::Wrong(line) => Err(Stop::Wrong {
            rule: Rule::Actions,
            line,
        }),
    }
}

// Asks the third rule: the changes of rows.
pub fn ask_chain(alloc: Global, report: &ReportParts) -> Result<Versions, Stop>
    ensures { (case : Case) → (found : Findings) → case.report ≡ report.now → Keeps rules.Shape case found
        → IsAsked rules.Chain case found (λ changes. IsChainJudged case found (chains.Kept changes)) result }
{
    let rule = judge_chain(alloc, report)?;
    match rule {
        ChainRule::Kept(changes) => Ok(changes),
        ChainRule::Wrong(line) => Err(Stop::Wrong {
            rule: Rule::Chain,
            line,
        }),
    }
}

// Asks the fourth rule: the sets of switch words.
pub fn ask_setup(
    alloc: Global,
    cuts: &[CutPhase],
    report: &ReportParts,
    actions: &Versions,
    orders: &Orders,
) -> Result<(), Stop>
    ensures { (case : Case) → (found : Findings) → case.report ≡ report.now
        → found.blocks ≡ phases_by cuts.now report.now.phases → KeepBefore rules.Setup case found
        → AreFoundIn case found actions.now → AreOrdersOf case found orders.now
        → IsAsked rules.Setup case found (λ _. Keeps rules.Setup case found) result }
{
    let rule = judge_setup(alloc, cuts, report, actions, orders)?;
    match rule {
        SetupRule::Kept => Ok(()),
        SetupRule::Wrong(line) => Err(Stop::Wrong {
            rule: Rule::Setup,
            line,
        }),
    }
}

// Asks the fifth rule: what each line names was there to be seen.
pub fn ask_seen(alloc: Global, cuts: &[CutPhase], report: &ReportParts) -> Result<(), Stop>
    ensures { (case : Case) → (found : Findings) → case.report ≡ report.now
        → found.blocks ≡ phases_by cuts.now report.now.phases → KeepBefore rules.Seen case found
        → IsAsked rules.Seen case found (λ _. Keeps rules.Seen case found) result }
{
    let rule = judge_seen(alloc, cuts, report)?;
    match rule {
        SeenRule::Kept => Ok(()),
        SeenRule::Wrong(line) => Err(Stop::Wrong {
            rule: Rule::Seen,
            line,
        }),
    }
}

// Asks the sixth rule: the verdicts.
pub fn ask_verdicts(
    alloc: Global,
    setting: &Setting,
    cuts: &[CutPhase],
    report: &ReportParts,
) -> Result<(), Stop>
    ensures { (case : Case) → (found : Findings) → case.setting ≡ setting.now → case.report ≡ report.now
        → found.blocks ≡ phases_by cuts.now report.now.phases → KeepBefore rules.Verdict case found
        → IsAsked rules.Verdict case found (λ _. Keeps rules.Verdict case found) result }
{
    let rule = judge_verdicts(alloc, setting, cuts, report)?;
    match rule {
        VerdictRule::Kept => Ok(()),
        VerdictRule::Wrong(line) => Err(Stop::Wrong {
            rule: Rule::Verdict,
            line,
        }),
    }
}

// Asks the seventh rule: the numbers of events, places of connects and answers; it hands the orders back.
pub fn ask_numbers(
    alloc: Global,
    cuts: &[CutPhase],
    report: &ReportParts,
    orders: Orders,
) -> Result<Orders, Stop>
    ensures { (case : Case) → (found : Findings) → case.report ≡ report.now
        → found.blocks ≡ phases_by cuts.now report.now.phases → KeepBefore rules.Numbers case found
        → AreOrdersOf case found orders
        → IsAsked rules.Numbers case found (λ kept. IsNumbersJudged case found (numbers.Kept kept)) result }
{
    let rule = judge_numbers(alloc, cuts, report, orders)?;
    match rule {
        NumbersRule::Kept(kept) => Ok(kept),
        NumbersRule::Wrong(line) => Err(Stop::Wrong {
            rule: Rule::Numbers,
            line,
        }),
    }
}
