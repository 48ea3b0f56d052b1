//! The rows of a table in a page.

ghost use Rattle.std.specs.Prelude.{◌≡◌, ◌+◌, ◌<◌, ◌++◌, ◌^◌, OnOk};
ghost use Rattle.std.specs.List.{All};
ghost use Rattle.pfs_html.specs.Cells.{cell_html, cell_tag as spec_cell_tag, cells_html, heading_html, headings_html, row_cells_html, row_html};

use crate::NoMemory;
use crate::escapes::put_escaped;
use pfs_text::{Row, RowValue};
use pfs_view::{Headings, Layout, Times, is_right};

/// The page as far as it is built and not yet written, and the text of a cell before it is escaped.
#[derive(Drop)]
pub(crate) struct Pen {
    pub page: Vec<u8>,
    pub cell: Vec<u8>,
}

fn cell_tag(right: bool) -> &'static [u8]
    ensures { result.now ≡ spec_cell_tag right }
{
    if right { b"<td class=\"n\">" } else { b"<td>" }
}

/// Appends what a row has in a column.
#[tactic(auto, unfolding(crate::specs::Cells::cell_html))]
fn put_cell(
    pen: &mut Pen,
    headings: Headings,
    row: &[RowValue],
    place: usize,
) -> Result<(), NoMemory>
    ensures { OnOk result (pen.new.page.items ≡ pen.old.page.items ++ cell_html headings row.now place) }
{
    let layout = Layout {
        headings,
        times: Times::Units,
    };
    pen.cell.clear();
    layout.put_cell(&mut pen.cell, row, place)?;
    pen.page.extend_from_slice(cell_tag(is_right(row, place)))?;
    put_escaped(&mut pen.page, pen.cell.as_slice())?;
    pen.page.extend_from_slice(b"</td>")
}

/// Appends what a row has in these columns, in their order.
#[tactic(auto, unfolding(crate::specs::Cells::cells_html))]
pub(crate) fn put_cells(
    pen: &mut Pen,
    headings: Headings,
    places: &[usize],
    row: &[RowValue],
) -> Result<(), NoMemory>
    ensures { OnOk result (pen.new.page.items ≡ pen.old.page.items ++ cells_html headings places.now row.now) }
{
    for place in places {
        put_cell(pen, headings, row, *place)?;
    }
    Ok(())
}

/// Appends a cell for each value of a row, in their order.
#[tactic(auto, unfolding(crate::specs::Cells::row_cells_html))]
fn put_row_cells(pen: &mut Pen, headings: Headings, row: &[RowValue]) -> Result<(), NoMemory>
    ensures { OnOk result (pen.new.page.items ≡ pen.old.page.items ++ row_cells_html headings row.now) }
{
    for place in 0..row.len() {
        put_cell(pen, headings, row, place)?;
    }
    Ok(())
}

/// Appends a row.
#[tactic(auto, unfolding(crate::specs::Cells::row_html))]
pub(crate) fn put_row(pen: &mut Pen, headings: Headings, row: &Row) -> Result<(), NoMemory>
    ensures { OnOk result (pen.new.page.items ≡ pen.old.page.items ++ row_html headings row.now) }
{
    pen.page.extend_from_slice(b"<tr>")?;
    put_row_cells(pen, headings, row.as_slice())?;
    pen.page.extend_from_slice(b"</tr>\n")
}

/// Appends what stands above a column.
#[tactic(auto, unfolding(crate::specs::Cells::heading_html))]
fn put_heading(pen: &mut Pen, headings: Headings, place: usize) -> Result<(), NoMemory>
    requires { place + 1 < 2 ^ 64 }
    ensures { OnOk result (pen.new.page.items ≡ pen.old.page.items ++ heading_html headings place) }
{
    pen.cell.clear();
    headings.put(&mut pen.cell, place as u64)?;
    pen.page.extend_from_slice(b"<th>")?;
    put_escaped(&mut pen.page, pen.cell.as_slice())?;
    pen.page.extend_from_slice(b"</th>")
}

/// Appends what stands above these columns, in their order.
#[tactic(auto, unfolding(crate::specs::Cells::headings_html))]
pub(crate) fn put_headings(
    pen: &mut Pen,
    headings: Headings,
    places: &[usize],
) -> Result<(), NoMemory>
    requires { All (λ place. place + 1 < 2 ^ 64) places.now }
    ensures { OnOk result (pen.new.page.items ≡ pen.old.page.items ++ headings_html headings places.now) }
{
    for place in places {
        put_heading(pen, headings, *place)?;
    }
    Ok(())
}
