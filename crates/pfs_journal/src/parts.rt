//! Reading the parts of a report. A part begins with a line that was taken already, and the line
//! behind it is given back with it.

ghost use Rattle.std.specs.Prelude.{ℕ, List, ◌≡◌, ◌≢◌, ◌++◌, ◌∷◌, [], ◌<◌, ◌≤◌, length, IfOk, OnOk, Some};
ghost use Rattle.std.specs.List.{All, flat_map};
ghost use Rattle.pfs_journal.specs.declared.line.Line.TheVariants as says;
ghost use Rattle.pfs_journal.specs.SingleLines.{line_text, IsLine};
ghost use Rattle.pfs_journal.specs.ReportPlaces.{Place, Blocks, Counters, Ended, Journal, Named, Phases, Results, rows_due, step, Leads, StopsAfter};
ghost use Rattle.pfs_journal.specs.ReportReadings.{IfBad, IsRead, Grows, AnswerGrows, AnswersGrow, JournalGrows, IsJournalRead};
ghost use Rattle.pfs_journal.specs.Reports.{IsRow, IsName, IsTable, IsLost, IsBlock, IsPhase, IsReport, rows_asked};
ghost use Rattle.pfs_journal.specs.Spelling.{row_text, table_text, lost_text, block_text, phase_text, results_text, spelling};

use crate::blocks::{AnswerList, EntryList};
use crate::checks::rows_asked;
use crate::line::Line;
use crate::reading::{Lines, ReadStop, next, push};
use crate::values::{LostList, LostReport, TableList, TableReport};
use pfs_event::{Entry, Log};
use pfs_text::{Row, Rowset, Text};
use std::alloc::Global;

fn take_row(
    alloc: Global,
    lines: &mut Lines<'_>,
    rows: &mut Vec<Row>,
    row: Row,
) -> Result<Line, ReadStop>
    requires { IsRow row }
    ensures grows { IfOk result
        (λ line. Grows row_text IsRow rows.old.items rows.new.items (says.Row row) lines.old.rest.now line
        lines.new.rest.now) }
    ensures leads { IfOk result (λ line. (place : Place) → Leads (Some place) lines.old.rest.now lines.old.taken
        (step place line) lines.new.rest.now lines.new.taken) }
    ensures stops { IfBad result (λ at. (place : Place) → place ≢ Ended
        → StopsAfter (Some place) lines.old.rest.now lines.old.taken at) }
{
    push(rows, row)?;
    next(alloc, lines)
}

/// Rows, as many as there are.
fn read_rows(alloc: Global, lines: &mut Lines<'_>, first: Line) -> Result<(Rowset, Line), ReadStop>
    requires { IsLine first }
    ensures read { IfOk result
        (λ x. IsRead (flat_map row_text x.0) (All IsRow x.0) first lines.old.rest.now x.1 lines.new.rest.now) }
    ensures leads { IfOk result (λ x. x.0 ≢ []
        → Leads (step Named first) lines.old.rest.now lines.old.taken (step Results x.1)
        lines.new.rest.now lines.new.taken) }
    ensures none { IfOk result (λ x. x.0 ≡ []
        → StopsAfter (step Named first) lines.old.rest.now lines.old.taken lines.new.taken) }
    ensures stops { IfBad result (λ at. StopsAfter (step Named first) lines.old.rest.now lines.old.taken at) }
{
    let mut rows = Vec::new(alloc);
    let mut line = first;
    'rows: loop {
        match line {
            Line::Row(row) => line = take_row(alloc, lines, &mut rows, row)?,
            other => return Ok((Rowset::new(rows), other)),
        }
    }
}

/// A table, behind its line.
fn read_table(
    alloc: Global,
    lines: &mut Lines<'_>,
    name: Text,
) -> Result<(TableReport, Line), ReadStop>
    requires { IsName name }
    ensures read { IfOk result (λ x. IsRead (table_text x.0) (IsTable x.0) (says.Table name) lines.old.rest.now x.1
        lines.new.rest.now) }
    ensures shorter { IfOk result (λ _. length lines.new.rest.now < length lines.old.rest.now) }
    ensures leads { IfOk result (λ x. Leads (Some Named) lines.old.rest.now lines.old.taken (step Results x.1)
        lines.new.rest.now lines.new.taken) }
    ensures stops { IfBad result (λ at. StopsAfter (Some Named) lines.old.rest.now lines.old.taken at) }
{
    let first = next(alloc, lines)?;
    let (rows, line) = read_rows(alloc, lines, first)?;
    if rows.as_slice().is_empty() {
        return Err(lines.last_is_wrong());
    }
    Ok((TableReport { name, rows }, line))
}

fn take_table(
    alloc: Global,
    lines: &mut Lines<'_>,
    tables: &mut Vec<TableReport>,
    name: Text,
) -> Result<Line, ReadStop>
    requires { IsName name }
    ensures grows { IfOk result (λ line. Grows table_text IsTable tables.old.items tables.new.items (says.Table name)
        lines.old.rest.now line lines.new.rest.now) }
    ensures leads { IfOk result (λ line. Leads (Some Named) lines.old.rest.now lines.old.taken (step Results line)
        lines.new.rest.now lines.new.taken) }
    ensures stops { IfBad result (λ at. StopsAfter (Some Named) lines.old.rest.now lines.old.taken at) }
{
    let (table, line) = read_table(alloc, lines, name)?;
    push(tables, table)?;
    Ok(line)
}

/// Tables, as many as there are.
pub fn read_tables(
    alloc: Global,
    lines: &mut Lines<'_>,
    first: Line,
) -> Result<(TableList, Line), ReadStop>
    requires { IsLine first }
    ensures read { IfOk result (λ x. IsRead (flat_map table_text x.0) (All IsTable x.0) first lines.old.rest.now x.1
        lines.new.rest.now) }
    ensures leads { IfOk result (λ x. Leads (step Results first) lines.old.rest.now lines.old.taken (step Counters x.1)
        lines.new.rest.now lines.new.taken) }
    ensures stops { IfBad result (λ at. StopsAfter (step Results first) lines.old.rest.now lines.old.taken at) }
{
    let mut tables = Vec::new(alloc);
    let mut line = first;
    'tables: loop {
        match line {
            Line::Table(name) => line = take_table(alloc, lines, &mut tables, name)?,
            other => return Ok((TableList::new(tables), other)),
        }
    }
}

fn take_lost(
    alloc: Global,
    lines: &mut Lines<'_>,
    counters: &mut Vec<LostReport>,
    lost: LostReport,
) -> Result<Line, ReadStop>
    requires { IsLost lost }
    ensures grows { IfOk result (λ line. Grows lost_text IsLost counters.old.items counters.new.items (says.Lost lost)
        lines.old.rest.now line lines.new.rest.now) }
    ensures leads { IfOk result (λ line. Leads (Some Counters) lines.old.rest.now lines.old.taken (step Counters line)
        lines.new.rest.now lines.new.taken) }
    ensures stops { IfBad result (λ at. StopsAfter (Some Counters) lines.old.rest.now lines.old.taken at) }
{
    push(counters, lost)?;
    next(alloc, lines)
}

/// Counters, as many as there are.
pub fn read_lost(
    alloc: Global,
    lines: &mut Lines<'_>,
    first: Line,
) -> Result<(LostList, Line), ReadStop>
    requires { IsLine first }
    ensures read { IfOk result (λ x. IsRead (flat_map lost_text x.0) (All IsLost x.0) first lines.old.rest.now x.1
        lines.new.rest.now) }
    ensures leads { IfOk result (λ x. Leads (step Counters first) lines.old.rest.now lines.old.taken (step Phases x.1)
        lines.new.rest.now lines.new.taken) }
    ensures stops { IfBad result (λ at. StopsAfter (step Counters first) lines.old.rest.now lines.old.taken at) }
{
    let mut counters = Vec::new(alloc);
    let mut line = first;
    'counters: loop {
        match line {
            Line::Lost(lost) => line = take_lost(alloc, lines, &mut counters, lost)?,
            other => return Ok((LostList::new(counters), other)),
        }
    }
}

/// The rows of an answer, so many as its entry says.
fn read_answer(
    alloc: Global,
    lines: &mut Lines<'_>,
    number: u64,
    first: Line,
) -> Result<(Rowset, Line), ReadStop>
    requires { IsLine first }
    ensures read { IfOk result
        (λ x. IsRead (flat_map row_text x.0) (All IsRow x.0) first lines.old.rest.now x.1 lines.new.rest.now) }
    ensures size { IfOk result (λ x. length x.0 ≡ number) }
    ensures leads { IfOk result (λ x. Leads (step (Journal number) first)
        lines.old.rest.now lines.old.taken (step (Journal 0) x.1) lines.new.rest.now lines.new.taken) }
    ensures stops { IfBad result (λ at. StopsAfter (step (Journal number) first)
        lines.old.rest.now lines.old.taken at) }
{
    let mut rows = Vec::new(alloc);
    let mut line = first;
    for place in 0..number {
        match line {
            Line::Row(row) => line = take_row(alloc, lines, &mut rows, row)?,
            _ => return Err(lines.last_is_wrong()),
        }
    }
    Ok((Rowset::new(rows), line))
}

fn take_answer(
    alloc: Global,
    lines: &mut Lines<'_>,
    answers: &mut Vec<Rowset>,
    number: u64,
    first: Line,
) -> Result<Line, ReadStop>
    requires { IsLine first }
    ensures grows { IfOk result (λ line. AnswerGrows number answers.old.items answers.new.items first lines.old.rest.now
        line lines.new.rest.now) }
    ensures leads { IfOk result (λ line. Leads (step (Journal number) first)
        lines.old.rest.now lines.old.taken (step (Journal 0) line) lines.new.rest.now lines.new.taken) }
    ensures stops { IfBad result (λ at. StopsAfter (step (Journal number) first)
        lines.old.rest.now lines.old.taken at) }
{
    let (rows, line) = read_answer(alloc, lines, number, first)?;
    push(answers, rows)?;
    Ok(line)
}

/// The answer behind an entry, where one is due there.
fn take_answer_if(
    alloc: Global,
    lines: &mut Lines<'_>,
    answers: &mut Vec<Rowset>,
    asked: Option<u64>,
    first: Line,
) -> Result<Line, ReadStop>
    requires { IsLine first }
    ensures grows { IfOk result (λ line. AnswersGrow asked answers.old.items answers.new.items first
        lines.old.rest.now line lines.new.rest.now) }
    ensures leads { IfOk result (λ line. Leads (step (Journal (rows_due asked)) first)
        lines.old.rest.now lines.old.taken (step (Journal 0) line) lines.new.rest.now lines.new.taken) }
    ensures stops { IfBad result (λ at. StopsAfter (step (Journal (rows_due asked)) first)
        lines.old.rest.now lines.old.taken at) }
{
    match asked {
        Some(number) => take_answer(alloc, lines, answers, number, first),
        None => Ok(first),
    }
}

/// Appends an entry to a journal.
fn push_entry(entries: &mut Log, entry: Entry) -> Result<(), ReadStop>
    ensures pushed { OnOk result (entries.new.entries ≡ entries.old.entries ++ entry ∷ []) }
    ensures memory { IfBad result (λ at. ⊥) }
{
    match entries.reserve(1) {
        Ok(()) => {
            entries.push(entry);
            Ok(())
        }
        Err(_) => Err(ReadStop::NoMemory),
    }
}

fn take_entry(
    alloc: Global,
    lines: &mut Lines<'_>,
    entries: &mut Log,
    answers: &mut Vec<Rowset>,
    entry: Entry,
) -> Result<Line, ReadStop>
    ensures grows { IfOk result
        (λ line. JournalGrows entry entries.old.entries entries.new.entries answers.old.items answers.new.items
        lines.old.rest.now line lines.new.rest.now) }
    ensures leads { IfOk result (λ line. Leads (Some (Journal (rows_due (rows_asked entry))))
        lines.old.rest.now lines.old.taken (step (Journal 0) line) lines.new.rest.now lines.new.taken) }
    ensures stops { IfBad result (λ at. StopsAfter (Some (Journal (rows_due (rows_asked entry))))
        lines.old.rest.now lines.old.taken at) }
{
    push_entry(entries, entry)?;
    let first = next(alloc, lines)?;
    take_answer_if(alloc, lines, answers, rows_asked(&entry), first)
}

/// A journal with its answers.
pub fn read_journal(
    alloc: Global,
    lines: &mut Lines<'_>,
    first: Line,
) -> Result<(EntryList, AnswerList, Line), ReadStop>
    requires { IsLine first }
    ensures read { IfOk result (λ x. IsJournalRead x.0 x.1 first lines.old.rest.now x.2 lines.new.rest.now) }
    ensures leads { IfOk result (λ x. Leads (step (Journal 0) first)
        lines.old.rest.now lines.old.taken (step Blocks x.2) lines.new.rest.now lines.new.taken) }
    ensures stops { IfBad result (λ at. StopsAfter (step (Journal 0) first) lines.old.rest.now lines.old.taken at) }
{
    let mut entries = Log::new(alloc);
    let mut answers = Vec::new(alloc);
    let mut line = first;
    'entries: loop {
        match line {
            Line::Entry(entry) => line = take_entry(
                alloc,
                lines,
                &mut entries,
                &mut answers,
                entry,
            )?,
            other => return Ok((EntryList::new(entries), AnswerList::new(answers), other)),
        }
    }
}
