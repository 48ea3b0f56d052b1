//! Tables in a page.

ghost use Rattle.std.specs.Prelude.{◌≡◌, ◌+◌, ◌<◌, ◌++◌, ◌^◌, IfOk, OnOk};
ghost use Rattle.std.specs.List.{All};
ghost use Rattle.pfs_html.specs.Cells.{places_below as spec_places_below};
ghost use Rattle.pfs_html.specs.Tables.{count_html, fold_html, folded_html, head_html, lost_html, name_html, named_html, rows_html, sheet_html, table_html, tables_html};

use crate::NoMemory;
use crate::cells::{Pen, put_headings, put_row};
use crate::escapes::put_escaped;
use pfs_journal::{LostReport, TableReport};
use pfs_text::{Row, put_u64};
use pfs_view::{Grid, Headings, Layout, Times, counter_rows, headings_of};
use std::alloc::Global;

/// The numbers from 0 up to this one, which is left out.
fn places_below(alloc: Global, count: usize) -> Result<Vec<usize>, NoMemory>
    ensures { IfOk result (λ places. places.items ≡ spec_places_below count) }
{
    let mut places = Vec::new(alloc);
    for place in 0..count {
        places.push(place)?;
    }
    Ok(places)
}

#[tactic(auto, unfolding(crate::specs::Tables::head_html))]
fn put_head(pen: &mut Pen, headings: Headings, places: &[usize]) -> Result<(), NoMemory>
    requires { All (λ place. place + 1 < 2 ^ 64) places.now }
    ensures { OnOk result (pen.new.page.items ≡ pen.old.page.items ++ head_html headings places.now) }
{
    pen.page.extend_from_slice(b"<div><table>\n<tr>")?;
    put_headings(pen, headings, places)?;
    pen.page.extend_from_slice(b"</tr>\n")
}

#[tactic(auto, unfolding(crate::specs::Tables::rows_html))]
fn put_rows(pen: &mut Pen, headings: Headings, rows: &[Row]) -> Result<(), NoMemory>
    ensures { OnOk result (pen.new.page.items ≡ pen.old.page.items ++ rows_html headings rows.now) }
{
    for row in rows {
        put_row(pen, headings, row)?;
    }
    Ok(())
}

/// Appends rows in their order, under the headings of these columns.
#[tactic(auto, unfolding(crate::specs::Tables::sheet_html))]
fn put_sheet(
    pen: &mut Pen,
    headings: Headings,
    places: &[usize],
    rows: &[Row],
) -> Result<(), NoMemory>
    requires { All (λ place. place + 1 < 2 ^ 64) places.now }
    ensures { OnOk result (pen.new.page.items ≡ pen.old.page.items ++ sheet_html headings places.now rows.now) }
{
    put_head(pen, headings, places)?;
    put_rows(pen, headings, rows)?;
    pen.page.extend_from_slice(b"</table></div>\n")
}

/// Appends rows in their order, each value under the heading of its place.
#[tactic(auto, using(crate::proofs::PlaceLists::places_low), unfolding(crate::specs::Tables::table_html))]
pub(crate) fn put_table(
    alloc: Global,
    pen: &mut Pen,
    headings: Headings,
    rows: &[Row],
) -> Result<(), NoMemory>
    ensures { OnOk result (pen.new.page.items ≡ pen.old.page.items ++ table_html headings rows.now) }
{
    let layout = Layout {
        headings,
        times: Times::Units,
    };
    let columns = Grid { layout, rows }.columns();
    let places = places_below(alloc, columns)?;
    put_sheet(pen, headings, places.as_slice(), rows)
}

#[tactic(auto, unfolding(crate::specs::Tables::name_html))]
fn put_name(out: &mut Vec<u8>, name: &[u8]) -> Result<(), NoMemory>
    ensures { OnOk result (out.new.items ≡ out.old.items ++ name_html name.now) }
{
    out.extend_from_slice(b"<details><summary>")?;
    put_escaped(out, name)?;
    out.extend_from_slice(b" ")
}

/// Appends how many there are of what is folded.
#[tactic(auto, unfolding(crate::specs::Tables::count_html))]
pub(crate) fn put_count(out: &mut Vec<u8>, count: usize) -> Result<(), NoMemory>
    ensures { OnOk result (out.new.items ≡ out.old.items ++ count_html count) }
{
    out.extend_from_slice(b"<i>")?;
    put_u64(out, count as u64)?;
    out.extend_from_slice(b"</i></summary>\n")
}

#[tactic(auto, unfolding(crate::specs::Tables::fold_html))]
fn put_fold(out: &mut Vec<u8>, name: &[u8], count: usize) -> Result<(), NoMemory>
    ensures { OnOk result (out.new.items ≡ out.old.items ++ fold_html name.now count) }
{
    put_name(out, name)?;
    put_count(out, count)
}

/// Appends a table that is folded under its name.
#[tactic(auto, unfolding(crate::specs::Tables::folded_html))]
fn put_folded(
    alloc: Global,
    pen: &mut Pen,
    name: &[u8],
    headings: Headings,
    rows: &[Row],
) -> Result<(), NoMemory>
    ensures { OnOk result (pen.new.page.items ≡ pen.old.page.items ++ folded_html name.now headings rows.now) }
{
    put_fold(&mut pen.page, name, rows.len())?;
    put_table(alloc, pen, headings, rows)?;
    pen.page.extend_from_slice(b"</details>\n")
}

#[tactic(auto, unfolding(crate::specs::Tables::named_html))]
fn put_named(alloc: Global, pen: &mut Pen, table: &TableReport) -> Result<(), NoMemory>
    ensures { OnOk result (pen.new.page.items ≡ pen.old.page.items ++ named_html table.now) }
{
    let name = table.name.as_bytes();
    put_folded(alloc, pen, name, headings_of(name), table.rows.as_slice())
}

/// Appends the tables in their order.
#[tactic(auto, unfolding(crate::specs::Tables::tables_html))]
pub(crate) fn put_tables(
    alloc: Global,
    pen: &mut Pen,
    tables: &[TableReport],
) -> Result<(), NoMemory>
    ensures { OnOk result (pen.new.page.items ≡ pen.old.page.items ++ tables_html tables.now) }
{
    for table in tables {
        put_named(alloc, pen, table)?;
    }
    Ok(())
}

/// Appends the counters of what was lost, where there are some.
#[tactic(auto, unfolding(crate::specs::Tables::lost_html))]
pub(crate) fn put_lost(alloc: Global, pen: &mut Pen, lost: &[LostReport]) -> Result<(), NoMemory>
    ensures { OnOk result (pen.new.page.items ≡ pen.old.page.items ++ lost_html lost.now) }
{
    if lost.is_empty() {
        return Ok(());
    }
    let rows = counter_rows(alloc, lost)?;
    put_folded(alloc, pen, b"lost", Headings::Counters, rows.as_slice())
}
