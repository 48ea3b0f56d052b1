//! Rows laid out under their headings, in columns as wide as their widest cells of at most 64 characters.

ghost use Rattle.std.specs.Prelude.{ℕ, List, ◌≡◌, ◌<◌, ◌+◌, ◌^◌, OnOk, IfOk};
ghost use Rattle.pfs_outside.specs.WholeStreams.{Puts};
ghost use Rattle.pfs_view.specs.Grids.{body_lines, border_line as spec_border_line, column_total, first_of, grid_text, heading_line as spec_heading_line, heading_width, lines_below, lines_of, row_line as spec_row_line, row_lines, rows_and_border, widths_of};

use crate::NoMemory;
use crate::lines::{Buffers, Layout, border_line};
use pfs_outside::{Sink, WriteStop, write_all};
use pfs_text::Row;
use std::alloc::Global;

/// Rows under their headings.
#[derive(Clone, Copy)]
pub struct Grid<'a> {
    pub layout: Layout,
    pub rows: &'a [Row],
}

/// Offers a line that was built, or says that memory ran out.
pub(crate) fn offer<K: Sink>(
    sink: &mut K,
    line: &[u8],
    built: Result<(), NoMemory>,
) -> Result<(), WriteStop>
    ensures { (text : List ℕ) → OnOk built (line.now ≡ text)
        → Puts (K.written sink.old) (K.written sink.new) (K.faults sink.old) (K.faults sink.new) text result }
{
    match built {
        Ok(()) => write_all(sink, line),
        Err(_) => Err(WriteStop::NoMemory),
    }
}

fn put_border<K: Sink>(
    buffers: &mut Buffers,
    sink: &mut K,
    widths: &[usize],
) -> Result<(), WriteStop>
    ensures { Puts (K.written sink.old) (K.written sink.new) (K.faults sink.old) (K.faults sink.new)
        (spec_border_line widths.now) result }
{
    let built = border_line(&mut buffers.line, widths);
    offer(sink, buffers.line.as_slice(), built)
}

impl Grid<'_> {
    /// How many columns there are: each with a heading of its own, and each that a row has a value in.
    pub fn columns(&self) -> usize
        ensures { result ≡ column_total self.now.layout.headings self.now.rows.now }
    {
        let mut columns = self.layout.headings.count() as usize;
        for row in self.rows {
            columns = columns.max(row.as_slice().len());
        }
        columns
    }

    /// How wide each heading is.
    #[tactic(auto, using(crate::proofs::GridLists::first_more))]
    fn heading_widths(&self, alloc: Global, cell: &mut Vec<u8>) -> Result<Vec<usize>, NoMemory>
        ensures { IfOk result (λ widths. widths.items
            ≡ first_of (heading_width self.now.layout.headings)
            (column_total self.now.layout.headings self.now.rows.now)) }
    {
        let columns = self.columns();
        let mut widths = Vec::new(alloc);
        for place in 0..columns {
            widths.push(self.layout.heading_width(cell, place)?)?;
        }
        Ok(widths)
    }

    /// How wide each column is.
    fn widths(&self, alloc: Global, cell: &mut Vec<u8>) -> Result<Vec<usize>, NoMemory>
        ensures { IfOk result (λ widths. widths.items ≡ widths_of self.now.layout.headings self.now.layout.times
            self.now.rows.now) }
    {
        let mut widths = self.heading_widths(alloc, cell)?;
        for row in self.rows {
            self.layout.widen(cell, &mut widths, row.as_slice())?;
        }
        Ok(widths)
    }

    fn put_heading<K: Sink>(
        &self,
        buffers: &mut Buffers,
        sink: &mut K,
        widths: &[usize],
    ) -> Result<(), WriteStop>
        ensures { Puts (K.written sink.old) (K.written sink.new) (K.faults sink.old) (K.faults sink.new)
            (spec_heading_line self.now.layout.headings widths.now) result }
    {
        let built = self.layout.heading_line(buffers, widths);
        offer(sink, buffers.line.as_slice(), built)
    }

    fn put_row<K: Sink>(
        &self,
        buffers: &mut Buffers,
        sink: &mut K,
        widths: &[usize],
        row: &Row,
    ) -> Result<(), WriteStop>
        ensures { Puts (K.written sink.old) (K.written sink.new) (K.faults sink.old) (K.faults sink.new)
            (spec_row_line self.now.layout.headings self.now.layout.times widths.now row.now) result }
    {
        let built = self.layout.row_line(buffers, widths, row);
        offer(sink, buffers.line.as_slice(), built)
    }

    /// Offers the rows, in order.
    #[tactic(auto, unfolding(crate::specs::Grids::row_lines))]
    fn put_rows<K: Sink>(
        &self,
        buffers: &mut Buffers,
        sink: &mut K,
        widths: &[usize],
    ) -> Result<(), WriteStop>
        ensures { Puts (K.written sink.old) (K.written sink.new) (K.faults sink.old) (K.faults sink.new)
            (row_lines self.now.layout.headings self.now.layout.times widths.now self.now.rows.now) result }
    {
        for row in self.rows {
            match self.put_row(buffers, sink, widths, row) {
                Ok(()) => {}
                Err(stop) => return Err(stop),
            }
        }
        Ok(())
    }

    #[tactic(auto, using(pfs_outside::proofs::SinkWrites::puts_then, pfs_outside::proofs::SinkWrites::puts_stop), unfolding(crate::specs::Grids::rows_and_border))]
    fn put_rows_and_border<K: Sink>(
        &self,
        buffers: &mut Buffers,
        sink: &mut K,
        widths: &[usize],
    ) -> Result<(), WriteStop>
        ensures { Puts (K.written sink.old) (K.written sink.new) (K.faults sink.old) (K.faults sink.new)
            (rows_and_border self.now.layout.headings self.now.layout.times widths.now self.now.rows.now) result }
    {
        self.put_rows(buffers, sink, widths)?;
        put_border(buffers, sink, widths)
    }

    #[tactic(auto, using(pfs_outside::proofs::SinkWrites::puts_then, pfs_outside::proofs::SinkWrites::puts_stop), unfolding(crate::specs::Grids::body_lines))]
    fn put_body<K: Sink>(
        &self,
        buffers: &mut Buffers,
        sink: &mut K,
        widths: &[usize],
    ) -> Result<(), WriteStop>
        ensures { Puts (K.written sink.old) (K.written sink.new) (K.faults sink.old) (K.faults sink.new)
            (body_lines self.now.layout.headings self.now.layout.times widths.now self.now.rows.now) result }
    {
        put_border(buffers, sink, widths)?;
        self.put_rows_and_border(buffers, sink, widths)
    }

    #[tactic(auto, using(pfs_outside::proofs::SinkWrites::puts_then, pfs_outside::proofs::SinkWrites::puts_stop), unfolding(crate::specs::Grids::lines_below))]
    fn put_below_border<K: Sink>(
        &self,
        buffers: &mut Buffers,
        sink: &mut K,
        widths: &[usize],
    ) -> Result<(), WriteStop>
        ensures { Puts (K.written sink.old) (K.written sink.new) (K.faults sink.old) (K.faults sink.new)
            (lines_below self.now.layout.headings self.now.layout.times widths.now self.now.rows.now) result }
    {
        self.put_heading(buffers, sink, widths)?;
        self.put_body(buffers, sink, widths)
    }

    #[tactic(auto, using(pfs_outside::proofs::SinkWrites::puts_then, pfs_outside::proofs::SinkWrites::puts_stop), unfolding(crate::specs::Grids::lines_of))]
    fn put_lines<K: Sink>(
        &self,
        buffers: &mut Buffers,
        sink: &mut K,
        widths: &[usize],
    ) -> Result<(), WriteStop>
        ensures { Puts (K.written sink.old) (K.written sink.new) (K.faults sink.old) (K.faults sink.new)
            (lines_of self.now.layout.headings self.now.layout.times widths.now self.now.rows.now) result }
    {
        put_border(buffers, sink, widths)?;
        self.put_below_border(buffers, sink, widths)
    }

    /// Offers the grid to a sink line by line: a border, the headings, a border, the rows in their order, a border.
    /// Each cell stands behind a bar, filled up to its column's width, a number at the right; one of more than 64
    /// characters, which no column is made as wide as, sticks out. A row's line ends behind its last value, and a value
    /// that no heading is known for stands under its column's number. On a refusal a front of these lines was written.
    #[tactic(auto, unfolding(crate::specs::Grids::grid_text))]
    pub fn put<K: Sink>(
        &self,
        alloc: Global,
        buffers: &mut Buffers,
        sink: &mut K,
    ) -> Result<(), WriteStop>
        ensures { Puts (K.written sink.old) (K.written sink.new) (K.faults sink.old) (K.faults sink.new)
            (grid_text self.now.layout.headings self.now.layout.times self.now.rows.now) result }
    {
        match self.widths(alloc, &mut buffers.cell) {
            Ok(widths) => self.put_lines(buffers, sink, widths.as_slice()),
            Err(_) => Err(WriteStop::NoMemory),
        }
    }
}
