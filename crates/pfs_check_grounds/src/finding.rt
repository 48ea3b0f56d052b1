//! The first seven rules in their order.

ghost use Rattle.std.specs.Prelude.{◌≡◌};
ghost use Rattle.pfs_board.specs.declared.view.Label.{Label as label_of};
ghost use Rattle.pfs_check_faults.specs.ReportCases.{Case};
ghost use Rattle.pfs_check_grounds.specs.RuleAnswers.{IsGrounded};
ghost use Rattle.pfs_check_orders.specs.ActionOrders.{IsNamed};
ghost use Rattle.pfs_runs.specs.ScriptLines.{change_in};

use crate::asking::{
    ask_actions, ask_chain, ask_numbers, ask_seen, ask_setup, ask_shape, ask_verdicts,
};
use crate::grounds::{Grounds, Stop};
use pfs_check_orders::replay;
use pfs_check_versions::ActionsFound;
use pfs_classes::Setting;
use pfs_journal::ReportParts;
use pfs_script::Phase;
use std::alloc::Global;

/// Asks the first seven rules of a report of the script with this setting and these phases, one after another: what they
/// find where all are kept; else the first of them that fails and its first line, or that memory ran out. Each connect
/// of the script gives names of the setting.
pub fn find_grounds(
    alloc: Global,
    setting: &Setting,
    phases: &[Phase],
    report: &ReportParts,
) -> Result<Grounds, Stop>
    requires { (label : label_of) → IsNamed setting.now.names (change_in phases.now label) }
    ensures { (case : Case) → case.setting ≡ setting.now → case.phases ≡ phases.now → case.report ≡ report.now
        → IsGrounded case result }
{
    pfs_check_faults::laws::order();
    let cuts = ask_shape(alloc, phases, report)?;
    let found = ask_actions(alloc, report)?;
    let ActionsFound { labels, actions } = found;
    let changes = ask_chain(alloc, report)?;
    let replayed = replay(alloc, setting, phases, labels.as_slice())?;
    ask_setup(alloc, cuts.as_slice(), report, &actions, &replayed)?;
    ask_seen(alloc, cuts.as_slice(), report)?;
    ask_verdicts(alloc, setting, cuts.as_slice(), report)?;
    let orders = ask_numbers(alloc, cuts.as_slice(), report, replayed)?;
    Ok(Grounds {
        cuts,
        labels,
        actions,
        changes,
        orders,
    })
}
