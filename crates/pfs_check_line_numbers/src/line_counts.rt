//! How far the parts of a report reach, by the numbers of its lines. Lines are counted from 1. None of these calls asks
//! for memory: an Err says that 2^64 lines or more stand there, which no memory holds.

ghost use Rattle.std.specs.Prelude.{◌≡◌, ◌+◌, ◌^◌, ◌<◌, ◌≤◌, ◌∷◌, [], List, length, take, drop, IfOk};
ghost use Rattle.pfs_event.specs.declared.entry.Entry.{Entry};
ghost use Rattle.std.specs.List.{flat_map, slice_index_or};
ghost use Rattle.pfs_journal.specs.ReportLines.{block_lines, journal_lines, row_lines, table_lines};
ghost use Rattle.pfs_journal.specs.Spelling.{is_answered};
ghost use Rattle.pfs_check_line_numbers.specs.LineCounts.{Reaches, ReachesSpot, result_lines};

use crate::NoMemory;
use pfs_event::Entry;
use pfs_journal::{BlockReport, EntryList, PhaseParts, TableReport};
use pfs_text::Rowset;
use std::alloc::AllocError;

/// The line behind so many.
pub fn behind(line: u64, lines: u64) -> Result<u64, NoMemory>
    ensures { Reaches result (line + lines) }
{
    match line.checked_add(lines) {
        Some(end) => Ok(end),
        None => Err(AllocError),
    }
}

fn is_answered(entry: &Entry) -> bool
    ensures { result ≡ is_answered entry.now }
{
    matches!(*entry, Entry::Rows { .. })
}

// The line behind the rows of the answer at a place, if there is one.
fn behind_answer(line: u64, answers: &[Rowset], place: usize) -> Result<u64, NoMemory>
    ensures { Reaches result (line + length (row_lines (slice_index_or (drop place answers.now) 0 []))) }
{
    if place >= answers.len() {
        return Ok(line);
    }
    behind(line, answers[place].as_slice().len() as u64)
}

/// A line, and the place of the next answer.
#[derive(Clone, Copy, Debug, PartialEq, Eq)]
pub(crate) struct Spot {
    pub line: u64,
    pub place: usize,
}

// Behind an entry and its answer, where it has one.
fn behind_entry(spot: Spot, entry: &Entry, answers: &[Rowset]) -> Result<Spot, NoMemory>
    requires { spot.place + 1 < 2 ^ 64 }
    ensures same { (rest : List Entry) → ReachesSpot result rest answers.now spot (entry.now ∷ rest) }
    ensures few { IfOk result (λ end. end.place ≤ spot.place + 1) }
{
    let line = behind(spot.line, 1)?;
    if !is_answered(entry) {
        return Ok(Spot {
            line,
            place: spot.place,
        });
    }
    let line = behind_answer(line, answers, spot.place)?;
    Ok(Spot {
        line,
        place: spot.place + 1,
    })
}

/// The line behind the first entries of a journal, so many, and behind their answers, where this is the line of the
/// first one.
pub fn behind_entries(
    line: u64,
    entries: &EntryList,
    answers: &[Rowset],
    count: usize,
) -> Result<u64, NoMemory>
    requires { count ≤ length entries.now }
    ensures { Reaches result (line + length (journal_lines (take count entries.now) answers.now)) }
{
    let mut spot = Spot { line, place: 0 };
    for at in 0..count {
        spot = behind_entry(spot, &entries.entry(at), answers)?;
    }
    Ok(spot.line)
}

/// The line behind a block, where this is its first line.
pub fn behind_block(line: u64, report: &BlockReport) -> Result<u64, NoMemory>
    ensures { Reaches result (line + length (block_lines report.now)) }
{
    let first = behind(line, 1)?;
    behind_entries(
        first,
        &report.entries,
        report.answers.as_slice(),
        report.entries.count(),
    )
}

fn behind_table(line: u64, table: &TableReport) -> Result<u64, NoMemory>
    ensures { Reaches result (line + length (table_lines table.now)) }
{
    let first = behind(line, 1)?;
    behind(first, table.rows.as_slice().len() as u64)
}

fn behind_tables(line: u64, tables: &[TableReport]) -> Result<u64, NoMemory>
    ensures { Reaches result (line + length (flat_map table_lines tables.now)) }
{
    let mut end = line;
    for table in tables {
        end = behind_table(end, table)?;
    }
    Ok(end)
}

/// The line behind a phase, where this is its line `final`.
pub fn behind_results(line: u64, report: &PhaseParts) -> Result<u64, NoMemory>
    ensures { Reaches result (line + length (result_lines report.now)) }
{
    let first = behind(line, 1)?;
    let lost = behind_tables(first, report.tables.as_slice())?;
    behind(lost, report.lost.as_slice().len() as u64)
}
