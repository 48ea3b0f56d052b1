//! How far the entries of a journal reach, by the numbers of their lines. Lines are counted from 1. NoMemory stands too
//! for more lines than can be counted, which no memory holds.

ghost use Rattle.std.specs.Prelude.{◌≡◌, ◌+◌, ◌^◌, ◌<◌, ◌≤◌, List, [], drop, IfOk};
ghost use Rattle.std.specs.List.{slice_index_or};
ghost use Rattle.pfs_journal.specs.Spelling.{is_answered};
ghost use Rattle.pfs_text.specs.declared.values.RowValue.{RowValue};
ghost use Rattle.pfs_check_versions.specs.PrintedEntries.{answers_behind, rows_behind};

use crate::NoMemory;
use pfs_event::Entry;
use pfs_text::{Row, Rowset};
use std::alloc::AllocError;

/// So many more.
pub(crate) fn plus(count: u64, more: u64) -> Result<u64, NoMemory>
    ensures { IfOk result (λ all. all ≡ count + more) }
{
    match count.checked_add(more) {
        Some(all) => Ok(all),
        None => Err(AllocError),
    }
}

fn is_answered(entry: &Entry) -> bool
    ensures { result ≡ is_answered entry.now }
{
    matches!(entry, Entry::Rows { .. })
}

// The answer in this place, or no rows where there is none.
fn answer_at(answers: &[Rowset], place: usize) -> &[Row]
    ensures { result.now ≡ slice_index_or (drop place answers.now) 0 [] }
{
    if place < answers.len() {
        answers[place].as_slice()
    } else {
        &[]
    }
}

fn rows_behind(entry: &Entry, answers: &[Rowset], place: usize) -> u64
    ensures { result ≡ rows_behind entry.now (drop place answers.now) }
{
    if is_answered(entry) {
        answer_at(answers, place).len() as u64
    } else {
        0
    }
}

/// Where a journal goes on: the line of its next entry, and the place of its next answer.
#[derive(Clone, Copy, Debug, PartialEq, Eq)]
pub(crate) struct Spot {
    pub line: u64,
    pub answer: usize,
}

fn answer_behind(entry: &Entry, answer: usize) -> usize
    requires { answer + 1 < 2 ^ 64 }
    ensures few { result ≤ answer + 1 }
    ensures left { (answers : List (List (List RowValue))) → drop result answers ≡ answers_behind entry.now (drop answer answers) }
{
    if is_answered(entry) {
        answer + 1
    } else {
        answer
    }
}

/// Behind an entry and the rows of its answer, where it has one.
pub(crate) fn behind_entry(spot: Spot, entry: &Entry, answers: &[Rowset]) -> Result<Spot, NoMemory>
    requires { spot.answer + 1 < 2 ^ 64 }
    ensures line { IfOk result (λ end. end.line ≡ spot.line + 1 + rows_behind entry.now (drop spot.answer answers.now)) }
    ensures few { IfOk result (λ end. end.answer ≤ spot.answer + 1) }
    ensures left { IfOk result (λ end. drop end.answer answers.now
        ≡ answers_behind entry.now (drop spot.answer answers.now)) }
{
    let first = plus(spot.line, 1)?;
    let line = plus(first, rows_behind(entry, answers, spot.answer))?;
    Ok(Spot {
        line,
        answer: answer_behind(entry, spot.answer),
    })
}
