//! The second and the third rule, asked of a report.

ghost use Rattle.std.specs.Prelude.{◌≡◌, IfOk};
ghost use Rattle.std.specs.BTreeMap.{get};
ghost use Rattle.pfs_check_faults.specs.declared.rules.Rule.TheVariants as rules;
ghost use Rattle.pfs_check_faults.specs.Judgements.{Keeps};
ghost use Rattle.pfs_check_faults.specs.ReportCases.{Case, Findings};
ghost use Rattle.pfs_check_versions.specs.LinkTests.{change_cmp};
ghost use Rattle.pfs_check_versions.specs.VersionRules.{IsActionsJudged, IsChainJudged};

use crate::NoMemory;
use crate::changes::{Chained, Made};
use crate::gathering::gather;
use crate::labelling::label_actions;
use crate::links::link;
use crate::rising::first_fall;
use pfs_board::Label;
use pfs_journal::ReportParts;
use pfs_model::Change;
use std::alloc::Global;
use std::collections::BTreeMap;

/// Where each change of a report stands, by its row and version.
#[derive(Debug, Drop)]
pub struct Versions {
    pub made: BTreeMap<Change, Made>,
}

impl Versions {
    /// Where a change stands; None where it stands nowhere.
    pub fn find(&self, change: Change) -> Option<Made>
        ensures { result ≡ get change_cmp self.now.made change }
    {
        self.made.get(&change).copied()
    }
}

/// The answer of the third rule.
#[derive(Debug, Drop)]
pub enum ChainRule {
    /// It is kept, and the changes of rows stand there.
    Kept(Versions),
    /// The first line at which it fails, counted from 1.
    Wrong(u64),
}

/// What the second rule finds.
#[derive(Debug, Drop)]
pub struct ActionsFound {
    /// The labels of the actions, by their numbers from 1 on: the session, and which of its actions it is.
    pub labels: Vec<Label>,
    /// Where each action begins: its number is a version of row 0.
    pub actions: Versions,
}

/// The answer of the second rule.
#[derive(Debug, Drop)]
pub enum ActionRule {
    /// It is kept, with this.
    Kept(ActionsFound),
    /// The first line at which it fails, counted from 1.
    Wrong(u64),
}

/// Asks the third rule: the changes of each row are numbered from 1, each once. Err where memory runs out.
pub fn judge_chain(alloc: Global, report: &ReportParts) -> Result<ChainRule, NoMemory>
    ensures { (case : Case) → (found : Findings) → case.report ≡ report.now → Keeps rules.Shape case found
        → IfOk result (IsChainJudged case found) }
{
    pfs_check_faults::laws::numbers();
    let gathered = gather(alloc, Chained::Rows, report)?;
    let changes = gathered.as_slice();
    let links = link(alloc, changes)?;
    if links.place < changes.len() {
        return Ok(ChainRule::Wrong(changes[links.place].line));
    }
    Ok(ChainRule::Kept(Versions { made: links.made }))
}

/// Asks the second rule: the actions are numbered from 1, each once, and rise along each session. Err where memory runs
/// out.
pub fn judge_actions(alloc: Global, report: &ReportParts) -> Result<ActionRule, NoMemory>
    ensures { (case : Case) → (found : Findings) → case.report ≡ report.now → Keeps rules.Shape case found
        → IfOk result (IsActionsJudged case found) }
{
    pfs_check_faults::laws::numbers();
    let gathered = gather(alloc, Chained::Actions, report)?;
    let actions = gathered.as_slice();
    let links = link(alloc, actions)?;
    let risen = first_fall(alloc, actions)?;
    let place = links.place.min(risen);
    if place < actions.len() {
        return Ok(ActionRule::Wrong(actions[place].line));
    }
    let labels = label_actions(alloc, actions)?;
    Ok(ActionRule::Kept(ActionsFound {
        labels,
        actions: Versions { made: links.made },
    }))
}
