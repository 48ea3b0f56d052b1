//! The changes of a report, gathered in its order.

ghost use Rattle.std.specs.Prelude.{◌≡◌, ◌+◌, ◌∷◌, [], ◌++◌, length, IfOk, OnOk};
ghost use Rattle.std.specs.List.{flat_map};
ghost use Rattle.pfs_journal.specs.ReportLines.{block_lines, journal_lines, phase_lines};
ghost use Rattle.pfs_check_versions.specs.PlacedChanges.{IsGathered, changes_of, given_by};
ghost use Rattle.pfs_check_versions.specs.PrintedEntries.{printed_blocks, printed_entries, printed_in, printed_phases};

use crate::NoMemory;
use crate::changes::{Chained, PlacedChange, change_in};
use crate::line_counts::{Spot, behind_entry, plus};
use pfs_check_line_numbers::behind_results;
use pfs_event::Entry;
use pfs_journal::{BlockReport, PhaseParts, PhaseReport, ReportParts};
use std::alloc::Global;

/// The line, the phase and the session of an entry.
#[derive(Clone, Copy, Debug, PartialEq, Eq)]
struct Stand {
    line: u64,
    phase: u64,
    session: u64,
}

fn push_entry(
    changes: &mut Vec<PlacedChange>,
    what: Chained,
    stand: Stand,
    entry: &Entry,
) -> Result<(), NoMemory>
    ensures { OnOk result (changes.new.items ≡ changes.old.items ++ changes_of (given_by what)
        (record { line = stand.line; phase = stand.phase; session = stand.session; entry = entry.now } ∷ [])) }
{
    match change_in(what, entry) {
        Some(change) => {
            changes.push(PlacedChange {
                line: stand.line,
                phase: stand.phase,
                session: stand.session,
                change,
            })?;
            Ok(())
        }
        None => Ok(()),
    }
}

// Of a journal whose first entry stands on this line; with the line behind it.
fn push_journal(
    changes: &mut Vec<PlacedChange>,
    what: Chained,
    line: u64,
    phase: u64,
    block: &BlockReport,
) -> Result<u64, NoMemory>
    ensures { IfOk result (IsGathered (given_by what) changes.old.items changes.new.items
        (printed_entries line phase block.now.session block.now.entries block.now.answers) line
        (length (journal_lines block.now.entries block.now.answers))) }
{
    let mut spot = Spot { line, answer: 0 };
    for at in 0..block.entries.count() {
        let entry = block.entries.entry(at);
        let stand = Stand {
            line: spot.line,
            phase,
            session: block.session,
        };
        push_entry(changes, what, stand, &entry)?;
        spot = behind_entry(spot, &entry, block.answers.as_slice())?;
    }
    Ok(spot.line)
}

// Of blocks of a phase, the first of which has its `session` line here; with the line behind them.
fn push_blocks(
    changes: &mut Vec<PlacedChange>,
    what: Chained,
    line: u64,
    phase: u64,
    blocks: &[BlockReport],
) -> Result<u64, NoMemory>
    ensures { IfOk result (IsGathered (given_by what) changes.old.items changes.new.items
        (printed_blocks line phase blocks.now) line (length (flat_map block_lines blocks.now))) }
{
    let mut end = line;
    for block in blocks {
        let first = plus(end, 1)?;
        end = push_journal(changes, what, first, phase, block)?;
    }
    Ok(end)
}

// Of a phase of this number whose `phase` line stands here; with the line behind it.
fn push_phase(
    changes: &mut Vec<PlacedChange>,
    what: Chained,
    line: u64,
    number: u64,
    phase: &PhaseParts,
) -> Result<u64, NoMemory>
    ensures { IfOk result (IsGathered (given_by what) changes.old.items changes.new.items
        (printed_blocks (line + 1) number phase.now.blocks) line (length (phase_lines phase.now))) }
{
    let first = plus(line, 1)?;
    let last = push_blocks(changes, what, first, number, phase.blocks.as_slice())?;
    let end = behind_results(last, phase)?;
    Ok(end)
}

fn gather_phases(
    alloc: Global,
    what: Chained,
    phases: &[PhaseReport],
) -> Result<Vec<PlacedChange>, NoMemory>
    ensures { IfOk result (λ changes. changes.items
        ≡ changes_of (given_by what) (printed_phases 2 1 phases.now)) }
{
    let mut changes = Vec::new(alloc);
    let mut line: u64 = 2;
    let mut number: u64 = 1;
    for phase in phases {
        line = push_phase(&mut changes, what, line, number, phase.parts())?;
        number = plus(number, 1)?;
    }
    Ok(changes)
}

/// The changes of a report, in its order. Err where memory runs out.
pub fn gather(
    alloc: Global,
    what: Chained,
    report: &ReportParts,
) -> Result<Vec<PlacedChange>, NoMemory>
    ensures { IfOk result (λ changes. changes.items ≡ changes_of (given_by what) (printed_in report.now)) }
{
    gather_phases(alloc, what, report.phases.as_slice())
}
