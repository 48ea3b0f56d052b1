//! The eleventh rule: the tables at each phase's end.

ghost use Rattle.std.specs.Prelude.{◌≡◌, ◌++◌, ℕ, IfOk, OnOk};
ghost use Rattle.pfs_finals.specs.Finals.{table_report};
ghost use Rattle.pfs_readsets.specs.declared.target.Target.{Target};
ghost use Rattle.pfs_rows.specs.declared.table.Reading.{Reading};
ghost use Rattle.pfs_check_faults.specs.declared.rules.Rule.TheVariants as rules;
ghost use Rattle.pfs_check_faults.specs.Judgements.{KeepBefore};
ghost use Rattle.pfs_check_faults.specs.ReportCases.{Case, Findings};
ghost use Rattle.pfs_check_finals.specs.EndTables.{AreDue, AreEndsOf, AreTablesAsked, IsPutAs, IsTablesJudged};

use crate::NoMemory;
use crate::comparing::tables_difference;
use crate::final_lines::final_line;
use crate::rules::EndRule;
use crate::standing::{Standing, read_standing};
use pfs_check_line_numbers::{behind, behind_results};
use pfs_classes::Setting;
use pfs_finals::{FINAL_TABLES, add_table, shown_rows};
use pfs_journal::{PhaseParts, ReportParts, TableReport};
use pfs_rows::Table;
use std::alloc::Global;

// Reads a table and puts it behind the others, where it has rows.
fn put_due<S: Standing>(
    alloc: Global,
    setting: &Setting,
    table: Table,
    phase: u64,
    standing: &S,
    tables: &mut Vec<TableReport>,
) -> Result<(), NoMemory>
    ensures { (shown : ℕ → Target → Reading) → S.stands standing.now shown
        → OnOk result (IsPutAs setting.now (shown phase) table tables.old.items tables.new.items) }
{
    let readings = read_standing(alloc, setting, table, phase, standing)?;
    let rows = shown_rows(alloc, setting, table, readings.as_slice())?;
    add_table(alloc, table, rows, tables)
}

// The tables that are due at the end of the phase of this number.
fn due_tables<S: Standing>(
    alloc: Global,
    setting: &Setting,
    phase: u64,
    standing: &S,
) -> Result<Vec<TableReport>, NoMemory>
    ensures { (shown : ℕ → Target → Reading) → S.stands standing.now shown
        → IfOk result (λ tables. AreDue setting.now (shown phase) tables.items) }
{
    let mut tables = Vec::new(alloc);
    for table in &FINAL_TABLES {
        put_due(alloc, setting, *table, phase, standing, &mut tables)?;
    }
    Ok(tables)
}

// The first line at which a phase's tables aren't those that are due, where its `final` has the line `last`.
fn tables_fault<S: Standing>(
    alloc: Global,
    setting: &Setting,
    standing: &S,
    report: &PhaseParts,
    last: u64,
) -> Result<Option<u64>, NoMemory>
    ensures { (shown : ℕ → Target → Reading) → S.stands standing.now shown
        → IfOk result (AreTablesAsked setting.now (shown report.now.number) last report.now.tables) }
{
    let due = due_tables(alloc, setting, report.number, standing)?;
    let first = behind(last, 1)?;
    let found = tables_difference(first, due.as_slice(), report.tables.as_slice())?;
    Ok(found)
}

/// Asks the eleventh rule of a report: under each `final` the tables are those that rows and words show, each by its
/// read set, and those without rows are left out. Whoever stands for the ends knows what rows and words show there.
/// Err where memory runs out.
pub fn judge_tables<S: Standing>(
    alloc: Global,
    setting: &Setting,
    report: &ReportParts,
    standing: &S,
) -> Result<EndRule, NoMemory>
    ensures { (case : Case) → (found : Findings) → case.setting ≡ setting.now → case.report ≡ report.now
        → KeepBefore rules.Tables case found → AreEndsOf case found (S.stands standing.now)
        → IfOk result (IsTablesJudged case found) }
{
    pfs_rows::laws::rows();
    let phases = report.phases.as_slice();
    let mut line: u64 = 2;
    for phase in phases {
        let parts = phase.parts();
        let last = final_line(line, parts)?;
        let fault = tables_fault(alloc, setting, standing, parts, last)?;
        match fault {
            Some(wrong) => return Ok(EndRule::Wrong(wrong)),
            None => {
                let end = behind_results(last, parts)?;
                line = end;
            }
        }
    }
    Ok(EndRule::Kept)
}
