//! The lines of a grid, each built in a buffer that serves for many.

ghost use Rattle.std.specs.Prelude.{◌≡◌, ◌<◌, ◌+◌, ◌++◌, ◌^◌, false, codes, length, replicate, slice_index, IfOk, OnOk};
ghost use Rattle.pfs_view.specs.Grids.{Widened, aligned as spec_aligned, bars, border_line as spec_border_line, cell_text, dashes, heading_line as spec_heading_line, is_right as spec_is_right, padded, row_line as spec_row_line, row_width};
ghost use Rattle.pfs_view.specs.ColumnHeadings.{heading_text};

use crate::NoMemory;
use crate::cells::{is_number, put_value};
use crate::columns::{Headings, Times};
use pfs_text::{Row, RowValue};

/// The line being built, and the cell of it.
#[derive(Drop)]
pub struct Buffers {
    pub line: Vec<u8>,
    pub cell: Vec<u8>,
}

/// How a grid's columns are headed, and how its times are shown.
#[derive(Clone, Copy, Debug)]
pub struct Layout {
    pub headings: Headings,
    pub times: Times,
}

/// How many characters a cell may have that its column is made as wide as: a digest has so many.
const MOST_WIDTH: usize = 64;

/// How wide a cell of so many characters makes its column: a wider one doesn't count.
fn aligned(size: usize) -> usize
    ensures { result ≡ spec_aligned size }
{
    if size <= MOST_WIDTH { size } else { 0 }
}

/// How wide the column at a place is, 0 where there is none.
fn width_of(widths: &[usize], place: usize) -> usize
    ensures { result ≡ slice_index widths.now place }
{
    match widths.get(place) {
        Some(width) => *width,
        None => 0,
    }
}

/// Appends so many of a byte.
fn put_repeated(out: &mut Vec<u8>, byte: u8, count: usize) -> Result<(), NoMemory>
    ensures { OnOk result (out.new.items ≡ out.old.items ++ replicate count byte) }
{
    for _done in 0..count {
        out.push(byte)?;
    }
    Ok(())
}

/// Appends a cell filled up to this width, a number's at its left.
fn put_padded(out: &mut Vec<u8>, cell: &[u8], right: bool, width: usize) -> Result<(), NoMemory>
    ensures { OnOk result (out.new.items ≡ out.old.items ++ padded right width cell.now) }
{
    let spaces = width.saturating_sub(cell.len());
    if right {
        put_repeated(out, b' ', spaces)?;
        out.extend_from_slice(cell)
    } else {
        out.extend_from_slice(cell)?;
        put_repeated(out, b' ', spaces)
    }
}

/// Appends a cell behind a bar.
fn put_bar(out: &mut Vec<u8>, cell: &[u8], right: bool, width: usize) -> Result<(), NoMemory>
    ensures { OnOk result (out.new.items ≡ out.old.items ++ codes "| " ++ padded right width cell.now ++ codes " ") }
{
    out.extend_from_slice(b"| ")?;
    put_padded(out, cell, right, width)?;
    out.extend_from_slice(b" ")
}

impl Layout {
    /// Appends what stands in a column of a row: nothing behind the row's last value.
    pub fn put_cell(self, out: &mut Vec<u8>, row: &[RowValue], place: usize) -> Result<(), NoMemory>
        ensures { OnOk result (out.new.items ≡ out.old.items ++ cell_text self.headings self.times row.now place) }
    {
        match row.get(place) {
            Some(value) => {
                let timed = self.times == Times::Units && self.headings.shows_time(place as u64);
                put_value(out, value, timed)
            }
            None => Ok(()),
        }
    }

    /// How wide the row makes a column: as its cell, which is built in the buffer, unless that is too wide.
    fn row_width(
        self,
        cell: &mut Vec<u8>,
        row: &[RowValue],
        place: usize,
    ) -> Result<usize, NoMemory>
        ensures { IfOk result (λ width. width ≡ row_width self.headings self.times place row.now) }
    {
        cell.clear();
        self.put_cell(cell, row, place)?;
        Ok(aligned(cell.len()))
    }

    /// Makes columns as wide as the row's cells at least, but for those that are too wide.
    pub(crate) fn widen(
        self,
        cell: &mut Vec<u8>,
        widths: &mut Vec<usize>,
        row: &[RowValue],
    ) -> Result<(), NoMemory>
        ensures { OnOk result (Widened self.headings self.times row.now widths.old.items widths.new.items) }
    {
        for place in 0..row.len().min(widths.len()) {
            let width = self.row_width(cell, row, place)?;
            widths[place] = widths[place].max(width);
        }
        Ok(())
    }

    /// How wide the heading is, which is built in the buffer.
    pub fn heading_width(self, cell: &mut Vec<u8>, place: usize) -> Result<usize, NoMemory>
        requires { place + 1 < 2 ^ 64 }
        ensures { IfOk result (λ width. width ≡ length (heading_text self.headings place)) }
    {
        cell.clear();
        self.headings.put(cell, place as u64)?;
        Ok(cell.len())
    }

    /// Builds the line of a row, in columns so wide. It ends behind the row's last value.
    #[tactic(auto, unfolding(crate::specs::Grids::row_line))]
    pub fn row_line(
        self,
        buffers: &mut Buffers,
        widths: &[usize],
        row: &Row,
    ) -> Result<(), NoMemory>
        ensures { OnOk result (buffers.new.line.items
            ≡ spec_row_line self.headings self.times widths.now row.now) }
    {
        let values = row.as_slice();
        buffers.line.clear();
        for place in 0..values.len() {
            self.put_row_bar(buffers, values, place, width_of(widths, place))?;
        }
        buffers.line.extend_from_slice(b"|\n")
    }

    /// Appends a row's cell to the line.
    fn put_row_bar(
        self,
        buffers: &mut Buffers,
        row: &[RowValue],
        place: usize,
        width: usize,
    ) -> Result<(), NoMemory>
        ensures { OnOk result (buffers.new.line.items ≡ buffers.old.line.items ++ codes "| "
            ++ padded (spec_is_right row.now place) width (cell_text self.headings self.times row.now place)
            ++ codes " ") }
    {
        buffers.cell.clear();
        self.put_cell(&mut buffers.cell, row, place)?;
        let right = is_right(row, place);
        put_bar(&mut buffers.line, buffers.cell.as_slice(), right, width)
    }

    /// Builds the line of the headings, in columns so wide.
    #[tactic(auto, unfolding(crate::specs::Grids::heading_line))]
    pub fn heading_line(self, buffers: &mut Buffers, widths: &[usize]) -> Result<(), NoMemory>
        ensures { OnOk result (buffers.new.line.items ≡ spec_heading_line self.headings widths.now) }
    {
        buffers.line.clear();
        for place in 0..widths.len() {
            self.put_heading_bar(buffers, place, widths[place])?;
        }
        buffers.line.extend_from_slice(b"|\n")
    }

    /// Appends a heading to the line.
    fn put_heading_bar(
        self,
        buffers: &mut Buffers,
        place: usize,
        width: usize,
    ) -> Result<(), NoMemory>
        requires { place + 1 < 2 ^ 64 }
        ensures { OnOk result (buffers.new.line.items ≡ buffers.old.line.items ++ codes "| "
            ++ padded false width (heading_text self.headings place) ++ codes " ") }
    {
        buffers.cell.clear();
        self.headings.put(&mut buffers.cell, place as u64)?;
        put_bar(&mut buffers.line, buffers.cell.as_slice(), false, width)
    }
}

/// Whether a row's cell is a number, which stands at the right of its column.
pub fn is_right(row: &[RowValue], place: usize) -> bool
    ensures { result ≡ spec_is_right row.now place }
{
    match row.get(place) {
        Some(value) => is_number(value),
        None => false,
    }
}

/// Appends what stands above or below a cell.
fn put_dashes(line: &mut Vec<u8>, width: usize) -> Result<(), NoMemory>
    ensures { OnOk result (line.new.items ≡ line.old.items ++ codes "+-" ++ replicate width 45 ++ codes "-") }
{
    line.extend_from_slice(b"+-")?;
    put_repeated(line, b'-', width)?;
    line.extend_from_slice(b"-")
}

/// Builds the line above and below the headings and the rows.
#[tactic(auto, unfolding(crate::specs::Grids::border_line))]
pub fn border_line(line: &mut Vec<u8>, widths: &[usize]) -> Result<(), NoMemory>
    ensures { OnOk result (line.new.items ≡ spec_border_line widths.now) }
{
    line.clear();
    for place in 0..widths.len() {
        put_dashes(line, widths[place])?;
    }
    line.extend_from_slice(b"+\n")
}
