//! The twelfth rule: the counters of what was lost.

ghost use Rattle.std.specs.Prelude.{ℕ, ◌≡◌, ◌+◌, ◌≤◌, List, length, take, IfOk};
ghost use Rattle.std.specs.List.{flat_map};
ghost use Rattle.pfs_admin.specs.Fold.{state_of};
ghost use Rattle.pfs_admin.specs.declared.changes.Change.{Change};
ghost use Rattle.pfs_board.specs.declared.view.Label.{Label};
ghost use Rattle.pfs_classes.specs.declared.setting.Setting.{Setting};
ghost use Rattle.pfs_containers.specs.ContainerState.{lost_in};
ghost use Rattle.pfs_event.specs.declared.entry.Entry.{Entry};
ghost use Rattle.pfs_journal.specs.ReportLines.{table_lines};
ghost use Rattle.pfs_model.specs.EntryPlaces.{Placed};
ghost use Rattle.pfs_runs.specs.ScriptLines.{change_in};
ghost use Rattle.pfs_check_cut.specs.CutReports.{phases_by};
ghost use Rattle.pfs_check_faults.specs.FinalFaults.{lost_due};
ghost use Rattle.pfs_check_faults.specs.declared.rules.Rule.TheVariants as rules;
ghost use Rattle.pfs_check_faults.specs.Judgements.{KeepBefore};
ghost use Rattle.pfs_check_faults.specs.ReportCases.{Case, Findings};
ghost use Rattle.pfs_check_finals.specs.Differences.{AreComparedFrom};
ghost use Rattle.pfs_check_finals.specs.EndTables.{IsLostJudged};
ghost use Rattle.pfs_check_finals.specs.LostCounts.{AreLosses};
ghost use Rattle.pfs_check_orders.specs.ActionOrders.{AreOrders};

use crate::NoMemory;
use crate::comparing::{fewer, lost_difference};
use crate::final_lines::final_line;
use crate::losing::{Losses, collect_losses, lost_in_phase};
use crate::rules::EndRule;
use pfs_check_cut::CutPhase;
use pfs_check_line_numbers::behind_results;
use pfs_check_orders::{Order, Orders};
use pfs_classes::Setting;
use pfs_containers::Lost;
use pfs_finals::{LostCounters, lost_rows};
use pfs_journal::{PhaseParts, ReportParts};
use std::alloc::Global;

// What was lost of threads, accounts, users and hosts behind so many actions.
fn lost_behind(orders: &[Order], actions: u64) -> Lost
    ensures { (setting : Setting) → (change : Label → Change) → (labels : List Label) → (entries : List Entry)
        → AreOrders setting change labels entries orders.now
        → result ≡ lost_in (state_of setting change (take actions labels)).kept.now }
{
    let last = fewer(actions as usize, orders.len());
    if last == 0 {
        return Lost {
            threads: 0,
            accounts: 0,
            users: 0,
            hosts: 0,
        };
    }
    orders[last - 1].lost
}

fn counters_of(lost: &Lost, losses: &Losses) -> LostCounters
    ensures { result ≡ record {
      threads = lost.now.threads;
      accounts = lost.now.accounts;
      users = lost.now.users;
      hosts = lost.now.hosts;
      digests = losses.now.digests;
      statements = losses.now.statements;
      waits = losses.now.waits;
    } }
{
    LostCounters {
        threads: lost.threads,
        accounts: lost.accounts,
        users: lost.users,
        hosts: lost.hosts,
        digests: losses.digests,
        statements: losses.statements,
        waits: losses.waits,
    }
}

// The first line at which a phase's counters aren't those that are due, where its first counter has this line.
fn lost_fault(
    alloc: Global,
    setting: &Setting,
    orders: &Orders,
    losses: &Losses,
    report: &PhaseParts,
    first: u64,
) -> Result<Option<u64>, NoMemory>
    ensures { (change : Label → Change) → (labels : List Label) → (so_far : List Placed)
        → AreOrders setting.now change labels orders.now.entries.entries orders.now.orders.items
        → AreLosses losses.now so_far
        → IfOk result (AreComparedFrom first (lost_due setting.now change labels so_far) report.now.lost) }
{
    let lost = lost_behind(orders.orders.as_slice(), losses.actions);
    let counters = counters_of(&lost, losses);
    let due = lost_rows(alloc, setting, &counters)?;
    let found = lost_difference(first, due.as_slice(), report.lost.as_slice())?;
    Ok(found)
}

// The number of the line of a phase's first counter, where this is the line behind the phase.
fn lost_line(end: u64, report: &PhaseParts) -> u64
    requires { length report.now.lost ≤ end }
    ensures { result + length report.now.lost ≡ end }
{
    end - report.lost.as_slice().len() as u64
}

/// Asks the twelfth rule of a report that is cut at these places: under each `final` stand the counters of what was
/// lost that aren't 0: of threads, accounts, users and hosts by the orders of its actions, of digests, statements and
/// waits by its entries, of classes by the setting. Err where memory runs out.
pub fn judge_lost(
    alloc: Global,
    setting: &Setting,
    cuts: &[CutPhase],
    report: &ReportParts,
    orders: &Orders,
) -> Result<EndRule, NoMemory>
    ensures { (case : Case) → (found : Findings) → case.setting ≡ setting.now → case.report ≡ report.now
        → found.blocks ≡ phases_by cuts.now report.now.phases → KeepBefore rules.Lost case found
        → AreOrders case.setting (change_in case.phases) found.labels orders.now.entries.entries orders.now.orders.items
        → IfOk result (IsLostJudged case found) }
{
    let counted = collect_losses(alloc, cuts, report)?;
    let phases = report.phases.as_slice();
    let mut line: u64 = 2;
    let mut so_far = lost_in_phase(counted.as_slice(), 0);
    for (at, phase) in phases.iter().enumerate() {
        let parts = phase.parts();
        let more = lost_in_phase(counted.as_slice(), at + 1);
        let losses = so_far.plus(more)?;
        let last = final_line(line, parts)?;
        let end = behind_results(last, parts)?;
        let first = lost_line(end, parts);
        let fault = lost_fault(alloc, setting, orders, &losses, parts, first)?;
        match fault {
            Some(wrong) => return Ok(EndRule::Wrong(wrong)),
            None => {
                so_far = losses;
                line = end;
            }
        }
    }
    Ok(EndRule::Kept)
}
