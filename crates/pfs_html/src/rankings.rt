//! What took most time: rows by time, with bars.

ghost use Rattle.std.specs.Prelude.{◌≡◌, ◌++◌, OnOk};
ghost use Rattle.std.specs.List.{find, flat_map};
ghost use Rattle.std.specs.Option.{option_map};
ghost use Rattle.std.specs.Str.{bytes_eq};
ghost use Rattle.pfs_journal.specs.declared.values.TableReport.{TableReport as SpecTable};
ghost use Rattle.pfs_html.specs.Rankings.{bar_and_cells_html, bar_html, columns_of, full_html, ranked_html, ranked_row_html, ranked_rows_html, ranking_head_html, ranking_html, ranking_of, rows_named as spec_rows_named, some_ranking, table_of, time_column, title_html, title_of};

use crate::NoMemory;
use crate::cells::{Pen, put_cells, put_headings};
use crate::ranks::{greatest_number, number_at, places_by_time};
use pfs_journal::TableReport;
use pfs_rows::{SummaryTable, Table, TableKind};
use pfs_text::{Row, put_u64};
use pfs_view::Headings;
use std::alloc::Global;

/// What is ranked by time.
#[derive(Clone, Copy)]
pub(crate) enum Ranking {
    Waits,
    Statements,
    Digests,
}

impl Ranking {
    fn table(self) -> Table
        ensures { result ≡ table_of self }
    {
        match self {
            Ranking::Waits => Table::Summary(TableKind::Waits, SummaryTable::Global),
            Ranking::Statements => Table::Summary(TableKind::Statements, SummaryTable::Global),
            Ranking::Digests => Table::DigestSummary,
        }
    }

    /// The columns that are shown: the name, the count, and the sum, average and greatest of the times.
    fn columns(self) -> &'static [usize]
        ensures { result.now ≡ columns_of self }
    {
        match self {
            Ranking::Waits | Ranking::Statements => &[0, 1, 2, 4, 5],
            Ranking::Digests => &[2, 3, 4, 6, 7],
        }
    }

    /// The column of the sums of times.
    fn time_column(self) -> usize
        ensures { result ≡ time_column self }
    {
        match self {
            Ranking::Waits | Ranking::Statements => 2,
            Ranking::Digests => 4,
        }
    }

    fn title(self) -> &'static [u8]
        ensures { result.now ≡ title_of self }
    {
        match self {
            Ranking::Waits => b"Waits by time",
            Ranking::Statements => b"Statements by time",
            Ranking::Digests => b"Statement texts by time",
        }
    }
}

fn has_name(table: &TableReport, name: &[u8]) -> bool
    ensures { result ≡ bytes_eq table.now.name name.now }
{
    table.name.as_bytes() == name
}

/// The first table of this name.
fn table_named<'a>(tables: &'a [TableReport], name: &[u8]) -> Option<&'a TableReport>
    ensures { option_map (λ table. table.now) result
        ≡ find (λ (table : SpecTable). bytes_eq table.name name.now) tables.now }
{
    for table in tables {
        if has_name(table, name) {
            return Some(table);
        }
    }
    None
}

/// The rows of the first table of this name, none where there is no such table.
pub(crate) fn rows_named<'a>(tables: &'a [TableReport], name: &[u8]) -> &'a [Row]
    ensures { result.now ≡ spec_rows_named name.now tables.now }
{
    match table_named(tables, name) {
        Some(table) => table.rows.as_slice(),
        None => &[],
    }
}

#[tactic(auto, unfolding(crate::specs::Rankings::full_html))]
fn put_full(out: &mut Vec<u8>, most: u64) -> Result<(), NoMemory>
    ensures { OnOk result (out.new.items ≡ out.old.items ++ full_html most) }
{
    out.extend_from_slice(b"<td><meter max=\"")?;
    put_u64(out, most)?;
    out.extend_from_slice(b"\" value=\"")
}

/// Appends a bar that is full at the greatest time.
#[tactic(auto, unfolding(crate::specs::Rankings::bar_html))]
fn put_bar(out: &mut Vec<u8>, most: u64, time: u64) -> Result<(), NoMemory>
    ensures { OnOk result (out.new.items ≡ out.old.items ++ bar_html most time) }
{
    put_full(out, most)?;
    put_u64(out, time)?;
    out.extend_from_slice(b"\"></meter></td>")
}

#[tactic(auto, unfolding(crate::specs::Rankings::bar_and_cells_html))]
fn put_bar_and_cells(pen: &mut Pen, ranking: Ranking, most: u64, row: &Row) -> Result<(), NoMemory>
    ensures { OnOk result (pen.new.page.items
        ≡ pen.old.page.items ++ bar_and_cells_html ranking most row.now) }
{
    let headings = Headings::Of(ranking.table());
    put_bar(&mut pen.page, most, number_at(ranking.time_column(), row))?;
    put_cells(pen, headings, ranking.columns(), row.as_slice())
}

/// Appends a row with its bar.
#[tactic(auto, unfolding(crate::specs::Rankings::ranked_row_html))]
fn put_ranked_row(pen: &mut Pen, ranking: Ranking, most: u64, row: &Row) -> Result<(), NoMemory>
    ensures { OnOk result (pen.new.page.items ≡ pen.old.page.items ++ ranked_row_html ranking most row.now) }
{
    pen.page.extend_from_slice(b"<tr>")?;
    put_bar_and_cells(pen, ranking, most, row)?;
    pen.page.extend_from_slice(b"</tr>\n")
}

#[tactic(auto, unfolding(crate::specs::Rankings::ranked_html))]
fn put_ranked(
    pen: &mut Pen,
    ranking: Ranking,
    most: u64,
    rows: &[Row],
    place: usize,
) -> Result<(), NoMemory>
    ensures { OnOk result (pen.new.page.items ≡ pen.old.page.items ++ ranked_html ranking most rows.now place) }
{
    match rows.get(place) {
        Some(row) => put_ranked_row(pen, ranking, most, row),
        None => Ok(()),
    }
}

/// Appends the rows at these places with their bars.
fn put_ranked_places(
    pen: &mut Pen,
    ranking: Ranking,
    most: u64,
    rows: &[Row],
    places: &[usize],
) -> Result<(), NoMemory>
    ensures { OnOk result (pen.new.page.items
        ≡ pen.old.page.items ++ flat_map (ranked_html ranking most rows.now) places.now) }
{
    for place in places {
        put_ranked(pen, ranking, most, rows, *place)?;
    }
    Ok(())
}

#[tactic(auto, unfolding(crate::specs::Rankings::ranked_rows_html))]
fn put_ranked_rows(
    alloc: Global,
    pen: &mut Pen,
    ranking: Ranking,
    most: u64,
    rows: &[Row],
) -> Result<(), NoMemory>
    ensures { OnOk result (pen.new.page.items ≡ pen.old.page.items ++ ranked_rows_html ranking most rows.now) }
{
    let places = places_by_time(alloc, ranking.time_column(), rows)?;
    put_ranked_places(pen, ranking, most, rows, places.as_slice())
}

#[tactic(auto, unfolding(crate::specs::Rankings::title_html))]
fn put_title(out: &mut Vec<u8>, ranking: Ranking) -> Result<(), NoMemory>
    ensures { OnOk result (out.new.items ≡ out.old.items ++ title_html ranking) }
{
    out.extend_from_slice(b"<h3>")?;
    out.extend_from_slice(ranking.title())?;
    out.extend_from_slice(b"</h3>\n<div><table>\n<tr><th></th>")
}

#[tactic(auto, using(crate::proofs::PlaceLists::columns_low), unfolding(crate::specs::Rankings::ranking_head_html))]
fn put_ranking_head(pen: &mut Pen, ranking: Ranking) -> Result<(), NoMemory>
    ensures { OnOk result (pen.new.page.items ≡ pen.old.page.items ++ ranking_head_html ranking) }
{
    let headings = Headings::Of(ranking.table());
    put_title(&mut pen.page, ranking)?;
    put_headings(pen, headings, ranking.columns())?;
    pen.page.extend_from_slice(b"</tr>\n")
}

/// Appends the rows by time with their bars.
#[tactic(auto, unfolding(crate::specs::Rankings::ranking_html))]
fn put_rows_by_time(
    alloc: Global,
    pen: &mut Pen,
    ranking: Ranking,
    rows: &[Row],
) -> Result<(), NoMemory>
    ensures { OnOk result (pen.new.page.items ≡ pen.old.page.items ++ ranking_html ranking rows.now) }
{
    let most = greatest_number(ranking.time_column(), rows);
    put_ranking_head(pen, ranking)?;
    put_ranked_rows(alloc, pen, ranking, most, rows)?;
    pen.page.extend_from_slice(b"</table></div>\n")
}

#[tactic(auto, unfolding(crate::specs::Rankings::some_ranking))]
fn put_some_ranking(
    alloc: Global,
    pen: &mut Pen,
    ranking: Ranking,
    rows: &[Row],
) -> Result<(), NoMemory>
    ensures { OnOk result (pen.new.page.items ≡ pen.old.page.items ++ some_ranking ranking rows.now) }
{
    if rows.is_empty() {
        Ok(())
    } else {
        put_rows_by_time(alloc, pen, ranking, rows)
    }
}

/// Appends a ranking of what these tables have, where they have it.
#[tactic(auto, unfolding(crate::specs::Rankings::ranking_of))]
pub(crate) fn put_ranking(
    alloc: Global,
    pen: &mut Pen,
    ranking: Ranking,
    tables: &[TableReport],
) -> Result<(), NoMemory>
    ensures { OnOk result (pen.new.page.items ≡ pen.old.page.items ++ ranking_of ranking tables.now) }
{
    let rows = rows_named(tables, ranking.table().name().as_bytes());
    put_some_ranking(alloc, pen, ranking, rows)
}
