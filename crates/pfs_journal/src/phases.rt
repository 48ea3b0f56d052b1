//! Reading the blocks and phases of a report, and the whole of it.

ghost use Rattle.std.specs.Prelude.{ℕ, List, ◌≡◌, ◌≢◌, ◌++◌, [], ◌<◌, length, IfOk, Some};
ghost use Rattle.std.specs.List.{All, flat_map};
ghost use Rattle.pfs_journal.specs.declared.line.Line.TheVariants as says;
ghost use Rattle.pfs_journal.specs.SingleLines.{line_text, IsLine};
ghost use Rattle.pfs_journal.specs.FirstWrongLine.{IsFirstWrong};
ghost use Rattle.pfs_journal.specs.ReportPlaces.{Blocks, Ended, Journal, Phases, Results, step, Leads, StopsAfter};
ghost use Rattle.pfs_journal.specs.ReportReadings.{IfBad, IsRead, Grows, PhaseEnds};
ghost use Rattle.pfs_journal.specs.Reports.{IsTable, IsLost, IsBlock, IsPhase, IsReport};
ghost use Rattle.pfs_journal.specs.Spelling.{block_text, phase_text, final_text, spelling};

use crate::blocks::{BlockList, BlockReport};
use crate::line::Line;
use crate::parts::{read_journal, read_lost, read_tables};
use crate::reading::{Lines, ReadStop, next, push};
use crate::report::{PhaseList, PhaseParts, PhaseReport, Report, ReportParts};
use crate::values::{LostList, TableList};
use std::alloc::Global;

/// A block, behind its line.
fn read_block(
    alloc: Global,
    lines: &mut Lines<'_>,
    session: u64,
) -> Result<(BlockReport, Line), ReadStop>
    ensures read { IfOk result (λ x. IsRead (block_text x.0) (IsBlock x.0) (says.Session session) lines.old.rest.now
        x.1 lines.new.rest.now) }
    ensures shorter { IfOk result (λ _. length lines.new.rest.now < length lines.old.rest.now) }
    ensures leads { IfOk result (λ x. Leads (Some (Journal 0)) lines.old.rest.now lines.old.taken (step Blocks x.1)
        lines.new.rest.now lines.new.taken) }
    ensures stops { IfBad result (λ at. StopsAfter (Some (Journal 0)) lines.old.rest.now lines.old.taken at) }
{
    let first = next(alloc, lines)?;
    let (entries, answers, line) = read_journal(alloc, lines, first)?;
    let block = BlockReport {
        session,
        entries,
        answers,
    };
    Ok((block, line))
}

fn take_block(
    alloc: Global,
    lines: &mut Lines<'_>,
    blocks: &mut Vec<BlockReport>,
    session: u64,
) -> Result<Line, ReadStop>
    ensures grows { IfOk result (λ line. Grows block_text IsBlock blocks.old.items
        blocks.new.items (says.Session session) lines.old.rest.now line lines.new.rest.now) }
    ensures leads { IfOk result (λ line. Leads (Some (Journal 0)) lines.old.rest.now lines.old.taken (step Blocks line)
        lines.new.rest.now lines.new.taken) }
    ensures stops { IfBad result (λ at. StopsAfter (Some (Journal 0)) lines.old.rest.now lines.old.taken at) }
{
    let (block, line) = read_block(alloc, lines, session)?;
    push(blocks, block)?;
    Ok(line)
}

/// Blocks, as many as there are.
fn read_blocks(
    alloc: Global,
    lines: &mut Lines<'_>,
    first: Line,
) -> Result<(BlockList, Line), ReadStop>
    requires { IsLine first }
    ensures read { IfOk result (λ x. IsRead (flat_map block_text x.0) (All IsBlock x.0) first lines.old.rest.now x.1
        lines.new.rest.now) }
    ensures leads { IfOk result (λ x. Leads (step Blocks first) lines.old.rest.now lines.old.taken (step Blocks x.1)
        lines.new.rest.now lines.new.taken) }
    ensures apart { IfOk result (λ x. (session : ℕ) → x.1 ≢ says.Session session) }
    ensures stops { IfBad result (λ at. StopsAfter (step Blocks first) lines.old.rest.now lines.old.taken at) }
{
    let mut blocks = Vec::new(alloc);
    let mut line = first;
    'each_block: loop {
        match line {
            Line::Session(session) => line = take_block(alloc, lines, &mut blocks, session)?,
            other => return Ok((BlockList::new(blocks), other)),
        }
    }
}

/// The tables and counters, behind the line that begins them.
fn read_results(
    alloc: Global,
    lines: &mut Lines<'_>,
) -> Result<(TableList, LostList, Line), ReadStop>
    ensures read { IfOk result (λ x. IsRead (final_text x.0 x.1) (All IsTable x.0
        × All IsLost x.1) says.Final lines.old.rest.now x.2 lines.new.rest.now) }
    ensures shorter { IfOk result (λ _. length lines.new.rest.now < length lines.old.rest.now) }
    ensures leads { IfOk result (λ x. Leads (Some Results) lines.old.rest.now lines.old.taken (step Phases x.2)
        lines.new.rest.now lines.new.taken) }
    ensures stops { IfBad result (λ at. StopsAfter (Some Results) lines.old.rest.now lines.old.taken at) }
{
    let first = next(alloc, lines)?;
    let (tables, behind) = read_tables(alloc, lines, first)?;
    let (lost, line) = read_lost(alloc, lines, behind)?;
    Ok((tables, lost, line))
}

/// The phase of these blocks, with the tables and counters that follow.
fn end_phase(
    alloc: Global,
    lines: &mut Lines<'_>,
    number: u64,
    blocks: BlockList,
) -> Result<(PhaseReport, Line), ReadStop>
    requires { All IsBlock blocks }
    ensures ends { IfOk result (λ x. PhaseEnds number blocks x.0 lines.old.rest.now x.1 lines.new.rest.now) }
    ensures leads { IfOk result (λ x. Leads (Some Results) lines.old.rest.now lines.old.taken (step Phases x.1)
        lines.new.rest.now lines.new.taken) }
    ensures stops { IfBad result (λ at. StopsAfter (Some Results) lines.old.rest.now lines.old.taken at) }
{
    let (tables, lost, line) = read_results(alloc, lines)?;
    let parts = PhaseParts {
        number,
        blocks,
        tables,
        lost,
    };
    Ok((PhaseReport::new(parts), line))
}

/// A phase, behind its line.
fn read_phase(
    alloc: Global,
    lines: &mut Lines<'_>,
    number: u64,
) -> Result<(PhaseReport, Line), ReadStop>
    ensures read { IfOk result (λ x. IsRead (phase_text x.0) (IsPhase x.0) (says.Phase number) lines.old.rest.now x.1
        lines.new.rest.now) }
    ensures shorter { IfOk result (λ _. length lines.new.rest.now < length lines.old.rest.now) }
    ensures leads { IfOk result (λ x. Leads (Some Blocks) lines.old.rest.now lines.old.taken (step Phases x.1)
        lines.new.rest.now lines.new.taken) }
    ensures stops { IfBad result (λ at. StopsAfter (Some Blocks) lines.old.rest.now lines.old.taken at) }
{
    let first = next(alloc, lines)?;
    let (blocks, line) = read_blocks(alloc, lines, first)?;
    match line {
        Line::Final => end_phase(alloc, lines, number, blocks),
        _ => Err(lines.last_is_wrong()),
    }
}

fn take_phase(
    alloc: Global,
    lines: &mut Lines<'_>,
    phases: &mut Vec<PhaseReport>,
    number: u64,
) -> Result<Line, ReadStop>
    ensures grows { IfOk result (λ line. Grows phase_text IsPhase phases.old.items phases.new.items (says.Phase number)
        lines.old.rest.now line lines.new.rest.now) }
    ensures leads { IfOk result (λ line. Leads (Some Blocks) lines.old.rest.now lines.old.taken (step Phases line)
        lines.new.rest.now lines.new.taken) }
    ensures stops { IfBad result (λ at. StopsAfter (Some Blocks) lines.old.rest.now lines.old.taken at) }
{
    let (phase, line) = read_phase(alloc, lines, number)?;
    push(phases, phase)?;
    Ok(line)
}

/// Phases, as many as there are.
fn read_phases(
    alloc: Global,
    lines: &mut Lines<'_>,
    first: Line,
) -> Result<(PhaseList, Line), ReadStop>
    requires { IsLine first }
    ensures read { IfOk result (λ x. IsRead (flat_map phase_text x.0) (All IsPhase x.0) first lines.old.rest.now x.1
        lines.new.rest.now) }
    ensures leads { IfOk result (λ x. Leads (step Phases first) lines.old.rest.now lines.old.taken (step Phases x.1)
        lines.new.rest.now lines.new.taken) }
    ensures apart { IfOk result (λ x. (number : ℕ) → x.1 ≢ says.Phase number) }
    ensures stops { IfBad result (λ at. StopsAfter (step Phases first) lines.old.rest.now lines.old.taken at) }
{
    let mut phases = Vec::new(alloc);
    let mut line = first;
    'each_phase: loop {
        match line {
            Line::Phase(number) => line = take_phase(alloc, lines, &mut phases, number)?,
            other => return Ok((PhaseList::new(phases), other)),
        }
    }
}

/// The report of these phases, where nothing is left.
fn end_report(lines: &Lines<'_>, format: u64, phases: PhaseList) -> Result<Report, ReadStop>
    requires format { format ≡ 1 }
    requires phases { All IsPhase phases }
    ensures report { IfOk result (λ report. report ≡ record { format = format; phases = phases }) }
    ensures whole { IfOk result (λ _. lines.now.rest.now ≡ []) }
    ensures stops { IfBad result (λ at. StopsAfter (Some Ended) lines.now.rest.now lines.now.taken at) }
{
    if lines.rest.is_empty() {
        Ok(Report::new(ReportParts { format, phases }))
    } else {
        Err(lines.next_is_wrong())
    }
}

/// What follows the first line.
fn read_report(alloc: Global, lines: &mut Lines<'_>, format: u64) -> Result<Report, ReadStop>
    requires { format ≡ 1 }
    ensures report { IfOk result (λ report. line_text (says.Head format) ++ lines.old.rest.now ≡ spelling report) }
    ensures stops { IfBad result (λ at. StopsAfter (Some Phases) lines.old.rest.now lines.old.taken at) }
{
    let first = next(alloc, lines)?;
    let (phases, line) = read_phases(alloc, lines, first)?;
    match line {
        Line::End => end_report(lines, format, phases),
        _ => Err(lines.last_is_wrong()),
    }
}

/// Reads a report back from its bytes, in one pass. Where they are no report, the first wrong line is
/// told, counted from 1: the first with which no report begins or, where there is none, the one
/// behind the last. The grammar is our own.
pub fn read(alloc: Global, bytes: &[u8]) -> Result<Report, ReadStop>
    ensures report { IfOk result (λ report. bytes.now ≡ spelling report) }
    ensures wrong { IfBad result (λ at. IsFirstWrong bytes.now at) }
{
    let mut lines = Lines {
        rest: bytes,
        taken: 0,
        buffer: Vec::new(alloc),
    };
    match next(alloc, &mut lines)? {
        Line::Head(format) => read_report(alloc, &mut lines, format),
        _ => Err(lines.last_is_wrong()),
    }
}
