//! The line of an entry.

ghost use Rattle.std.specs.Prelude.{◌≡◌, ◌^◌, ◌≤◌, length, slice_get, IfOk, OnErr};
ghost use Rattle.std.specs.List.{flat_map};
ghost use Rattle.pfs_journal.specs.ReportLines.{block_lines, phase_lines, report_lines};
ghost use Rattle.pfs_check_faults.specs.ReportCases.{entry_lines};
ghost use Rattle.pfs_check_line_numbers.specs.EntryLines.{GoesOn, IsFound};

use crate::NoMemory;
use crate::line_counts::{behind, behind_block, behind_entries, behind_results};
use pfs_journal::{BlockReport, PhaseParts, ReportParts};

/// An entry that is looked for: so many stand before it from this line on.
#[derive(Clone, Copy, Debug, PartialEq, Eq)]
pub(crate) struct Search {
    pub line: u64,
    pub left: u64,
}

/// It stands on this line, or behind these.
#[derive(Clone, Copy, Debug, PartialEq, Eq)]
pub(crate) enum Found {
    On(u64),
    Behind(Search),
}

fn seek_block(search: Search, block: &BlockReport) -> Result<Found, NoMemory>
    ensures found { IfOk result (IsFound search (block_lines block.now)) }
    ensures goes { GoesOn search (block_lines block.now) result }
{
    let count = block.entries.count() as u64;
    if search.left < count {
        let first = behind(search.line, 1)?;
        let answers = block.answers.as_slice();
        let line = behind_entries(first, &block.entries, answers, search.left as usize)?;
        return Ok(Found::On(line));
    }
    let end = behind_block(search.line, block)?;
    Ok(Found::Behind(Search {
        line: end,
        left: search.left - count,
    }))
}

fn seek_blocks(search: Search, blocks: &[BlockReport]) -> Result<Found, NoMemory>
    ensures found { IfOk result (IsFound search (flat_map block_lines blocks.now)) }
    ensures goes { GoesOn search (flat_map block_lines blocks.now) result }
{
    let mut rest = search;
    for block in blocks {
        let found = seek_block(rest, block)?;
        match found {
            Found::On(line) => return Ok(Found::On(line)),
            Found::Behind(next) => rest = next,
        }
    }
    Ok(Found::Behind(rest))
}

fn seek_phase(search: Search, phase: &PhaseParts) -> Result<Found, NoMemory>
    ensures found { IfOk result (IsFound search (phase_lines phase.now)) }
    ensures goes { GoesOn search (phase_lines phase.now) result }
{
    let first = behind(search.line, 1)?;
    let inner = Search {
        line: first,
        left: search.left,
    };
    let blocks = phase.blocks.as_slice();
    let found = seek_blocks(inner, blocks)?;
    match found {
        Found::On(line) => Ok(Found::On(line)),
        Found::Behind(rest) => {
            let end = behind_results(rest.line, phase)?;
            Ok(Found::Behind(Search {
                line: end,
                left: rest.left,
            }))
        }
    }
}

/// The line of the entry at a place, counted from 0 over all journals; None where there are no more. Lines are counted
/// from 1. Err where the report has 2^64 lines or more, which no memory holds; none is asked for.
pub fn entry_line(report: &ReportParts, place: u64) -> Result<Option<u64>, NoMemory>
    ensures found { IfOk result (λ line. line ≡ slice_get (entry_lines report.now) place) }
    ensures long { OnErr result (2 ^ 64 ≤ length (report_lines report.now)) }
{
    let phases = report.phases.as_slice();
    let mut rest = Search {
        line: 2,
        left: place,
    };
    for phase in phases {
        let parts = phase.parts();
        let found = seek_phase(rest, parts)?;
        match found {
            Found::On(line) => return Ok(Some(line)),
            Found::Behind(next) => rest = next,
        }
    }
    Ok(None)
}
