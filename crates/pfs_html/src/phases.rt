//! A phase of a report in a page.

ghost use Rattle.std.specs.Prelude.{◌≡◌, ◌++◌, OnOk};
ghost use Rattle.pfs_html.specs.Pages.{accounts_html, blocks_html, connected_html, details_html, findings_html, phase_head_html, phase_html, results_html, some_accounts_html, statements_html};

use crate::NoMemory;
use crate::cells::Pen;
use crate::journals::put_journals;
use crate::rankings::{Ranking, put_ranking, rows_named};
use crate::tables::{put_lost, put_table, put_tables};
use pfs_journal::{BlockReport, LostReport, PhaseParts, TableReport};
use pfs_rows::Table;
use pfs_text::{Row, put_u64};
use pfs_view::Headings;
use std::alloc::Global;

#[tactic(auto, unfolding(crate::specs::Pages::some_accounts_html))]
fn put_some_accounts(alloc: Global, pen: &mut Pen, rows: &[Row]) -> Result<(), NoMemory>
    ensures { OnOk result (pen.new.page.items ≡ pen.old.page.items ++ some_accounts_html rows.now) }
{
    pen.page.extend_from_slice(b"<h3>Who was connected</h3>\n")?;
    put_table(alloc, pen, Headings::Of(Table::Accounts), rows)
}

#[tactic(auto, unfolding(crate::specs::Pages::accounts_html))]
fn put_accounts(alloc: Global, pen: &mut Pen, rows: &[Row]) -> Result<(), NoMemory>
    ensures { OnOk result (pen.new.page.items ≡ pen.old.page.items ++ accounts_html rows.now) }
{
    if rows.is_empty() {
        Ok(())
    } else {
        put_some_accounts(alloc, pen, rows)
    }
}

/// Appends who was connected, by account.
fn put_connected(alloc: Global, pen: &mut Pen, tables: &[TableReport]) -> Result<(), NoMemory>
    ensures { OnOk result (pen.new.page.items ≡ pen.old.page.items ++ connected_html tables.now) }
{
    let rows = rows_named(tables, Table::Accounts.name().as_bytes());
    put_accounts(alloc, pen, rows)
}

#[tactic(auto, unfolding(crate::specs::Pages::statements_html))]
fn put_statements(alloc: Global, pen: &mut Pen, tables: &[TableReport]) -> Result<(), NoMemory>
    ensures { OnOk result (pen.new.page.items ≡ pen.old.page.items ++ statements_html tables.now) }
{
    put_ranking(alloc, pen, Ranking::Statements, tables)?;
    put_ranking(alloc, pen, Ranking::Digests, tables)
}

/// Appends what a phase is looked at for first: who was connected, and what took most time.
#[tactic(auto, unfolding(crate::specs::Pages::findings_html))]
fn put_findings(alloc: Global, pen: &mut Pen, tables: &[TableReport]) -> Result<(), NoMemory>
    ensures { OnOk result (pen.new.page.items ≡ pen.old.page.items ++ findings_html tables.now) }
{
    put_connected(alloc, pen, tables)?;
    put_ranking(alloc, pen, Ranking::Waits, tables)?;
    put_statements(alloc, pen, tables)
}

/// Appends all tables in the report's order, and the counters.
#[tactic(auto, unfolding(crate::specs::Pages::results_html))]
fn put_results(
    alloc: Global,
    pen: &mut Pen,
    tables: &[TableReport],
    lost: &[LostReport],
) -> Result<(), NoMemory>
    ensures { OnOk result (pen.new.page.items ≡ pen.old.page.items ++ results_html tables.now lost.now) }
{
    pen.page.extend_from_slice(b"<h3>All tables</h3>\n")?;
    put_tables(alloc, pen, tables)?;
    put_lost(alloc, pen, lost)
}

#[tactic(auto, unfolding(crate::specs::Pages::phase_head_html))]
fn put_phase_head(out: &mut Vec<u8>, number: u64) -> Result<(), NoMemory>
    ensures { OnOk result (out.new.items ≡ out.old.items ++ phase_head_html number) }
{
    out.extend_from_slice(b"<section>\n<h2>Phase ")?;
    put_u64(out, number)?;
    out.extend_from_slice(b"</h2>\n")
}

#[tactic(auto, unfolding(crate::specs::Pages::blocks_html))]
fn put_blocks(alloc: Global, pen: &mut Pen, blocks: &[BlockReport]) -> Result<(), NoMemory>
    ensures { OnOk result (pen.new.page.items ≡ pen.old.page.items ++ blocks_html blocks.now) }
{
    pen.page.extend_from_slice(b"<h3>Journals</h3>\n")?;
    put_journals(alloc, pen, blocks)?;
    pen.page.extend_from_slice(b"</section>\n")
}

/// Appends all that the report has of a phase.
#[tactic(auto, unfolding(crate::specs::Pages::details_html))]
fn put_details(alloc: Global, pen: &mut Pen, phase: &PhaseParts) -> Result<(), NoMemory>
    ensures { OnOk result (pen.new.page.items ≡ pen.old.page.items ++ details_html phase.now) }
{
    put_results(alloc, pen, phase.tables.as_slice(), phase.lost.as_slice())?;
    put_blocks(alloc, pen, phase.blocks.as_slice())
}

/// Builds the page's part of a phase.
#[tactic(auto, unfolding(crate::specs::Pages::phase_html))]
pub(crate) fn build_phase(alloc: Global, pen: &mut Pen, phase: &PhaseParts) -> Result<(), NoMemory>
    ensures { OnOk result (pen.new.page.items ≡ phase_html phase.now) }
{
    pen.page.clear();
    put_phase_head(&mut pen.page, phase.number)?;
    put_findings(alloc, pen, phase.tables.as_slice())?;
    put_details(alloc, pen, phase)
}
