//! What is shown of a report: its tables and counters, phase by phase.

ghost use Rattle.std.specs.Prelude.{ℕ, List, ◌≡◌, map, IfOk, OnOk};
ghost use Rattle.std.specs.List.{find};
ghost use Rattle.std.specs.Str.{bytes_eq};
ghost use Rattle.pfs_outside.specs.WholeStreams.{Puts};
ghost use Rattle.pfs_rows.specs.Tables.{table_name};
ghost use Rattle.pfs_view.specs.Grids.{grid_text};
ghost use Rattle.pfs_view.specs.ShownReports.{asked_text, behind_line, below_phase, blocks_at as spec_blocks_at, chosen_of, chosen_text, counter_row as spec_counter_row, counter_table, counters_text, headings_of as spec_headings_of, is_chosen_phase, is_chosen_table, lost_and_end, lost_text, name_line as spec_name_line, named_rows, phase_at, phase_body, phase_line as spec_phase_line, phase_text, phases_text, shown_text, stray_line, stray_text, table_grid, table_text, tables_text};

use crate::NoMemory;
use crate::answers::put_blocks;
use crate::columns::{Headings, Times};
use crate::grids::{Grid, offer};
use crate::lines::{Buffers, Layout};
use crate::scripts::judged;
use pfs_catalogue::TABLES;
use pfs_journal::{BlockReport, LostReport, PhaseParts, PhaseReport, Report, TableReport};
use pfs_outside::{Sink, WriteStop, write_all};
use pfs_rows::Table;
use pfs_script::{Block, Phase};
use pfs_text::{Row, RowValue, Text, put_u64};
use std::alloc::Global;

/// What of a report is shown.
#[derive(Clone, Copy)]
pub struct Choice<'a> {
    /// The phase of this number alone, or each.
    pub phase: Option<u64>,
    /// The tables of this name alone, or each, and the counters.
    pub table: Option<&'a [u8]>,
    /// How times are shown.
    pub times: Times,
}

/// The first of the tables that has this name.
fn table_named(tables: &[Table], name: &[u8]) -> Option<Table>
    ensures { result ≡ find (λ table. bytes_eq (table_name table) name.now) tables.now }
{
    for table in tables {
        if has_name(*table, name) {
            return Some(*table);
        }
    }
    None
}

fn has_name(table: Table, name: &[u8]) -> bool
    ensures { result ≡ bytes_eq (table_name table) name.now }
{
    table.name().as_bytes() == name
}

/// The columns of the table of that name, in small letters and without its schema, as a report names it.
pub fn headings_of(name: &[u8]) -> Headings
    ensures { result ≡ spec_headings_of name.now }
{
    match table_named(&TABLES, name) {
        Some(table) => Headings::Of(table),
        None => Headings::Numbered,
    }
}

/// The line of a table's name, with an empty line before it.
#[tactic(auto, unfolding(crate::specs::ShownReports::name_line))]
fn name_line(line: &mut Vec<u8>, name: &[u8]) -> Result<(), NoMemory>
    ensures { OnOk result (line.new.items ≡ spec_name_line name.now) }
{
    line.clear();
    line.extend_from_slice(b"\n")?;
    line.extend_from_slice(name)?;
    line.extend_from_slice(b"\n")
}

/// A row of a counter's name and its number.
fn counter_row(alloc: Global, lost: &LostReport) -> Result<Row, NoMemory>
    ensures { IfOk result (λ row. row ≡ spec_counter_row lost.now) }
{
    let mut values = Vec::new(alloc);
    values.push(RowValue::Text(Text::from_slice(alloc, lost.name.as_bytes())?))?;
    values.push(RowValue::Number(lost.number))?;
    Ok(Row::new(values))
}

/// The counters as rows, each of a name and a number.
pub fn counter_rows(alloc: Global, lost: &[LostReport]) -> Result<Vec<Row>, NoMemory>
    ensures { IfOk result (λ rows. rows.items ≡ map spec_counter_row lost.now) }
{
    let mut rows = Vec::new(alloc);
    for one in lost {
        rows.push(counter_row(alloc, one)?)?;
    }
    Ok(rows)
}

impl Choice<'_> {
    /// Whether tables of this name are shown.
    fn shows_table(&self, name: &[u8]) -> bool
        ensures { result ≡ is_chosen_table (chosen_of self.now).table name.now }
    {
        match self.table {
            Some(one) => name == one,
            None => true,
        }
    }

    /// Whether the phase of this number is shown.
    fn shows_phase(&self, number: u64) -> bool
        ensures { result ≡ is_chosen_phase (chosen_of self.now).phase number }
    {
        match self.phase {
            Some(one) => number == one,
            None => true,
        }
    }
}

fn put_name<K: Sink>(buffers: &mut Buffers, sink: &mut K, name: &[u8]) -> Result<(), WriteStop>
    ensures { Puts (K.written sink.old) (K.written sink.new) (K.faults sink.old) (K.faults sink.new)
        (spec_name_line name.now) result }
{
    let built = name_line(&mut buffers.line, name);
    offer(sink, buffers.line.as_slice(), built)
}

fn put_grid<K: Sink>(
    alloc: Global,
    headings: Headings,
    times: Times,
    rows: &[Row],
    buffers: &mut Buffers,
    sink: &mut K,
) -> Result<(), WriteStop>
    ensures { Puts (K.written sink.old) (K.written sink.new) (K.faults sink.old) (K.faults sink.new)
        (grid_text headings times rows.now) result }
{
    let layout = Layout { headings, times };
    Grid { layout, rows }.put(alloc, buffers, sink)
}

fn put_table_grid<K: Sink>(
    alloc: Global,
    times: Times,
    name: &[u8],
    rows: &[Row],
    buffers: &mut Buffers,
    sink: &mut K,
) -> Result<(), WriteStop>
    ensures { Puts (K.written sink.old) (K.written sink.new) (K.faults sink.old) (K.faults sink.new)
        (table_grid times name.now rows.now) result }
{
    put_grid(alloc, headings_of(name), times, rows, buffers, sink)
}

#[tactic(auto, using(pfs_outside::proofs::SinkWrites::puts_then, pfs_outside::proofs::SinkWrites::puts_stop), unfolding(crate::specs::ShownReports::named_rows))]
fn put_named_rows<K: Sink>(
    alloc: Global,
    times: Times,
    name: &[u8],
    rows: &[Row],
    buffers: &mut Buffers,
    sink: &mut K,
) -> Result<(), WriteStop>
    ensures { Puts (K.written sink.old) (K.written sink.new) (K.faults sink.old) (K.faults sink.new)
        (named_rows times name.now rows.now) result }
{
    put_name(buffers, sink, name)?;
    put_table_grid(alloc, times, name, rows, buffers, sink)
}

/// Offers a table under its name.
fn put_table<K: Sink>(
    alloc: Global,
    times: Times,
    table: &TableReport,
    buffers: &mut Buffers,
    sink: &mut K,
) -> Result<(), WriteStop>
    ensures { Puts (K.written sink.old) (K.written sink.new) (K.faults sink.old) (K.faults sink.new)
        (table_text times table.now) result }
{
    let rows = table.rows.as_slice();
    put_named_rows(alloc, times, table.name.as_bytes(), rows, buffers, sink)
}

/// Offers a table, where it is shown.
#[tactic(auto, unfolding(crate::specs::ShownReports::chosen_text))]
fn put_chosen<K: Sink>(
    alloc: Global,
    choice: &Choice<'_>,
    table: &TableReport,
    buffers: &mut Buffers,
    sink: &mut K,
) -> Result<(), WriteStop>
    ensures { Puts (K.written sink.old) (K.written sink.new) (K.faults sink.old) (K.faults sink.new)
        (chosen_text (chosen_of choice.now) table.now) result }
{
    if choice.shows_table(table.name.as_bytes()) {
        put_table(alloc, choice.times, table, buffers, sink)
    } else {
        Ok(())
    }
}

/// Offers the tables that are shown, in order.
#[tactic(auto, unfolding(crate::specs::ShownReports::tables_text))]
fn put_tables<K: Sink>(
    alloc: Global,
    choice: &Choice<'_>,
    tables: &[TableReport],
    buffers: &mut Buffers,
    sink: &mut K,
) -> Result<(), WriteStop>
    ensures { Puts (K.written sink.old) (K.written sink.new) (K.faults sink.old) (K.faults sink.new)
        (tables_text (chosen_of choice.now) tables.now) result }
{
    for table in tables {
        match put_chosen(alloc, choice, table, buffers, sink) {
            Ok(()) => {}
            Err(stop) => return Err(stop),
        }
    }
    Ok(())
}

/// Offers the counters under their name, where there are some.
#[tactic(auto, using(pfs_outside::proofs::SinkWrites::puts_then, pfs_outside::proofs::SinkWrites::puts_stop), unfolding(crate::specs::ShownReports::counter_table))]
fn put_counters<K: Sink>(
    alloc: Global,
    times: Times,
    rows: &[Row],
    buffers: &mut Buffers,
    sink: &mut K,
) -> Result<(), WriteStop>
    ensures { Puts (K.written sink.old) (K.written sink.new) (K.faults sink.old) (K.faults sink.new)
        (counter_table times rows.now) result }
{
    put_name(buffers, sink, b"lost")?;
    put_grid(alloc, Headings::Counters, times, rows, buffers, sink)
}

#[tactic(auto, unfolding(crate::specs::ShownReports::counters_text))]
fn put_some_lost<K: Sink>(
    alloc: Global,
    times: Times,
    lost: &[LostReport],
    buffers: &mut Buffers,
    sink: &mut K,
) -> Result<(), WriteStop>
    ensures { Puts (K.written sink.old) (K.written sink.new) (K.faults sink.old) (K.faults sink.new)
        (counters_text times lost.now) result }
{
    if lost.is_empty() {
        return Ok(());
    }
    match counter_rows(alloc, lost) {
        Ok(rows) => put_counters(alloc, times, rows.as_slice(), buffers, sink),
        Err(_) => Err(WriteStop::NoMemory),
    }
}

/// Offers the counters, unless one table is asked for.
#[tactic(auto, unfolding(crate::specs::ShownReports::lost_text))]
fn put_lost<K: Sink>(
    alloc: Global,
    choice: &Choice<'_>,
    lost: &[LostReport],
    buffers: &mut Buffers,
    sink: &mut K,
) -> Result<(), WriteStop>
    ensures { Puts (K.written sink.old) (K.written sink.new) (K.faults sink.old) (K.faults sink.new)
        (lost_text (chosen_of choice.now) lost.now) result }
{
    match choice.table {
        Some(_) => Ok(()),
        None => put_some_lost(alloc, choice.times, lost, buffers, sink),
    }
}

/// The line of a phase's number.
#[tactic(auto, unfolding(crate::specs::ShownReports::phase_line))]
fn phase_line(line: &mut Vec<u8>, number: u64) -> Result<(), NoMemory>
    ensures { OnOk result (line.new.items ≡ spec_phase_line number) }
{
    line.clear();
    line.extend_from_slice(b"phase ")?;
    put_u64(line, number)?;
    line.extend_from_slice(b"\n")
}

fn put_phase_line<K: Sink>(
    buffers: &mut Buffers,
    sink: &mut K,
    number: u64,
) -> Result<(), WriteStop>
    ensures { Puts (K.written sink.old) (K.written sink.new) (K.faults sink.old) (K.faults sink.new)
        (spec_phase_line number) result }
{
    let built = phase_line(&mut buffers.line, number);
    offer(sink, buffers.line.as_slice(), built)
}

#[tactic(auto, using(pfs_outside::proofs::SinkWrites::puts_then, pfs_outside::proofs::SinkWrites::puts_stop), unfolding(crate::specs::ShownReports::lost_and_end))]
fn put_lost_and_end<K: Sink>(
    alloc: Global,
    choice: &Choice<'_>,
    lost: &[LostReport],
    buffers: &mut Buffers,
    sink: &mut K,
) -> Result<(), WriteStop>
    ensures { Puts (K.written sink.old) (K.written sink.new) (K.faults sink.old) (K.faults sink.new)
        (lost_and_end (chosen_of choice.now) lost.now) result }
{
    put_lost(alloc, choice, lost, buffers, sink)?;
    write_all(sink, b"\n")
}

#[tactic(auto, using(pfs_outside::proofs::SinkWrites::puts_then, pfs_outside::proofs::SinkWrites::puts_stop), unfolding(crate::specs::ShownReports::below_phase))]
fn put_below_phase<K: Sink>(
    alloc: Global,
    choice: &Choice<'_>,
    tables: &[TableReport],
    lost: &[LostReport],
    buffers: &mut Buffers,
    sink: &mut K,
) -> Result<(), WriteStop>
    ensures { Puts (K.written sink.old) (K.written sink.new) (K.faults sink.old) (K.faults sink.new)
        (below_phase (chosen_of choice.now) tables.now lost.now) result }
{
    put_tables(alloc, choice, tables, buffers, sink)?;
    put_lost_and_end(alloc, choice, lost, buffers, sink)
}

/// Offers the texts that the sessions asked beside their answers, unless one table is asked for.
#[tactic(auto, unfolding(crate::specs::ShownReports::asked_text))]
fn put_asked<K: Sink>(
    alloc: Global,
    choice: &Choice<'_>,
    blocks: &[Block],
    reports: &[BlockReport],
    buffers: &mut Buffers,
    sink: &mut K,
) -> Result<(), WriteStop>
    ensures { Puts (K.written sink.old) (K.written sink.new) (K.faults sink.old) (K.faults sink.new)
        (asked_text (chosen_of choice.now) blocks.now reports.now) result }
{
    match choice.table {
        Some(_) => Ok(()),
        None => put_blocks(alloc, choice.times, blocks, reports, buffers, sink),
    }
}

#[tactic(auto, using(pfs_outside::proofs::SinkWrites::puts_then, pfs_outside::proofs::SinkWrites::puts_stop), unfolding(crate::specs::ShownReports::behind_line))]
fn put_behind_line<K: Sink>(
    alloc: Global,
    choice: &Choice<'_>,
    blocks: &[Block],
    reports: &[BlockReport],
    tables: &[TableReport],
    lost: &[LostReport],
    buffers: &mut Buffers,
    sink: &mut K,
) -> Result<(), WriteStop>
    ensures { Puts (K.written sink.old) (K.written sink.new) (K.faults sink.old) (K.faults sink.new)
        (behind_line (chosen_of choice.now) blocks.now reports.now tables.now lost.now) result }
{
    put_asked(alloc, choice, blocks, reports, buffers, sink)?;
    put_below_phase(alloc, choice, tables, lost, buffers, sink)
}

#[tactic(auto, using(pfs_outside::proofs::SinkWrites::puts_then, pfs_outside::proofs::SinkWrites::puts_stop), unfolding(crate::specs::ShownReports::phase_body))]
fn put_phase_body<K: Sink>(
    alloc: Global,
    choice: &Choice<'_>,
    blocks: &[Block],
    phase: &PhaseParts,
    buffers: &mut Buffers,
    sink: &mut K,
) -> Result<(), WriteStop>
    ensures { Puts (K.written sink.old) (K.written sink.new) (K.faults sink.old) (K.faults sink.new)
        (phase_body (chosen_of choice.now) blocks.now phase.now) result }
{
    put_phase_line(buffers, sink, phase.number)?;
    put_behind_line(
        alloc,
        choice,
        blocks,
        phase.blocks.as_slice(),
        phase.tables.as_slice(),
        phase.lost.as_slice(),
        buffers,
        sink,
    )
}

/// Offers a phase, where it is shown.
#[tactic(auto, unfolding(crate::specs::ShownReports::phase_text))]
fn put_phase<K: Sink>(
    alloc: Global,
    choice: &Choice<'_>,
    blocks: &[Block],
    phase: &PhaseReport,
    buffers: &mut Buffers,
    sink: &mut K,
) -> Result<(), WriteStop>
    ensures { Puts (K.written sink.old) (K.written sink.new) (K.faults sink.old) (K.faults sink.new)
        (phase_text (chosen_of choice.now) blocks.now phase.now) result }
{
    let parts = phase.parts();
    if choice.shows_phase(parts.number) {
        put_phase_body(alloc, choice, blocks, parts, buffers, sink)
    } else {
        Ok(())
    }
}

/// The blocks of a script's phase at a place, none where there is no such phase.
fn blocks_at(said: &[Phase], place: usize) -> &[Block]
    ensures { result.now ≡ spec_blocks_at said.now place }
{
    match said.get(place) {
        Some(phase) => phase.blocks.as_slice(),
        None => &[],
    }
}

/// Offers the phase at a place.
#[tactic(auto, unfolding(crate::specs::ShownReports::phase_at))]
fn put_phase_at<K: Sink>(
    alloc: Global,
    choice: &Choice<'_>,
    said: &[Phase],
    phases: &[PhaseReport],
    place: usize,
    buffers: &mut Buffers,
    sink: &mut K,
) -> Result<(), WriteStop>
    ensures { Puts (K.written sink.old) (K.written sink.new) (K.faults sink.old) (K.faults sink.new)
        (phase_at (chosen_of choice.now) said.now phases.now place) result }
{
    match phases.get(place) {
        Some(phase) => put_phase(alloc, choice, blocks_at(said, place), phase, buffers, sink),
        None => Ok(()),
    }
}

/// Offers the phases that are shown, in order.
#[tactic(auto, unfolding(crate::specs::ShownReports::phases_text))]
fn put_phases<K: Sink>(
    alloc: Global,
    choice: &Choice<'_>,
    said: &[Phase],
    phases: &[PhaseReport],
    buffers: &mut Buffers,
    sink: &mut K,
) -> Result<(), WriteStop>
    ensures { Puts (K.written sink.old) (K.written sink.new) (K.faults sink.old) (K.faults sink.new)
        (phases_text (chosen_of choice.now) said.now phases.now) result }
{
    for place in 0..phases.len() {
        match put_phase_at(alloc, choice, said, phases, place, buffers, sink) {
            Ok(()) => {}
            Err(stop) => return Err(stop),
        }
    }
    Ok(())
}

/// Offers the line that tells of a script that isn't the report's.
#[tactic(auto, unfolding(crate::specs::ShownReports::stray_line))]
fn put_stray_line<K: Sink>(sink: &mut K) -> Result<(), WriteStop>
    ensures { Puts (K.written sink.old) (K.written sink.new) (K.faults sink.old) (K.faults sink.new)
        stray_line result }
{
    write_all(
        sink,
        b"The script is not that of this report: its texts are left out.\n\n",
    )
}

/// Offers the phases without texts, and that line before them.
#[tactic(auto, using(pfs_outside::proofs::SinkWrites::puts_then, pfs_outside::proofs::SinkWrites::puts_stop), unfolding(crate::specs::ShownReports::stray_text))]
fn put_stray<K: Sink>(
    alloc: Global,
    choice: &Choice<'_>,
    phases: &[PhaseReport],
    buffers: &mut Buffers,
    sink: &mut K,
) -> Result<(), WriteStop>
    ensures { Puts (K.written sink.old) (K.written sink.new) (K.faults sink.old) (K.faults sink.new)
        (stray_text (chosen_of choice.now) phases.now) result }
{
    put_stray_line(sink)?;
    put_phases(alloc, choice, &[], phases, buffers, sink)
}

/// Writes the tables and counters of a report to a sink, line by line: each phase that is shown under its number, each
/// table that is shown under its name, in the report's order. Before them stand for each session the texts that the
/// script asks, where it is the report's, each beside its answer: with an empty script none. The journal is left out.
/// On a refusal a front of this was written.
#[tactic(auto, unfolding(crate::specs::ShownReports::shown_text))]
pub fn show<K: Sink>(
    alloc: Global,
    choice: &Choice<'_>,
    script: &[u8],
    report: &Report,
    sink: &mut K,
) -> Result<(), WriteStop>
    ensures { Puts (K.written sink.old) (K.written sink.new) (K.faults sink.old) (K.faults sink.new)
        (shown_text (chosen_of choice.now) script.now report.now) result }
{
    let mut buffers = Buffers {
        line: Vec::new(alloc),
        cell: Vec::new(alloc),
    };
    let phases = report.parts().phases.as_slice();
    match judged(alloc, script, phases) {
        Ok(Some(said)) => { put_phases(alloc, choice, said.as_slice(), phases, &mut buffers, sink) }
        Ok(None) => put_stray(alloc, choice, phases, &mut buffers, sink),
        Err(_) => Err(WriteStop::NoMemory),
    }
}
