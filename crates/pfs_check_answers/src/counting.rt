//! What a SELECT's entries say beside its readings: its action, and how many rows answer it.

ghost use Rattle.std.specs.Prelude.{◌≡◌, ◌++◌, ◌∷◌, ◌-◌, [], ℕ, List, Some, length, IfOk, MatchOption};
ghost use Rattle.pfs_event.specs.declared.entry.Entry.{Entry};
ghost use Rattle.pfs_event.specs.declared.entry.Entry.TheVariants.{Query, Rows};
ghost use Rattle.pfs_check_answers.specs.SelectParts.{ActsAt, ActsNowhere};
ghost use Rattle.pfs_check_answers.specs.RowCounts.{IsCompared};

use crate::NoMemory;
use crate::answered::Answered;
use crate::comparing::first_row;
use pfs_check_line_numbers::behind;
use pfs_event::Entry;
use pfs_text::Rowset;

/// The place of the last entry.
pub(crate) fn last_place(part: &[Entry]) -> u64
    ensures { result ≡ length part.now - 1 }
{
    part.len().saturating_sub(1) as u64
}

/// How many rows the last entry says.
fn rows_said(part: &[Entry]) -> Option<u64>
    ensures { (opening : List Entry) → (number : ℕ) → part.now ≡ opening ++ Rows number ∷ [] → result ≡ Some number }
{
    match part.last() {
        Some(Entry::Rows { number }) => Some(*number),
        _ => None,
    }
}

/// The entries between the first and the last.
pub(crate) fn between(part: &[Entry]) -> &[Entry]
    ensures { (readings : List Entry) → (number : ℕ) → part.now ≡ Query ∷ (readings ++ Rows number ∷ [])
        → result.now ≡ readings }
{
    if part.len() < 2 {
        return &part[..0];
    }
    &part[1..part.len() - 1]
}

/// The number of the action that the last entry but one says.
pub(crate) fn action_of(part: &[Entry]) -> Option<u64>
    ensures { (opening : List Entry) → (number : ℕ) → part.now ≡ opening ++ Rows number ∷ []
        → MatchOption result (ActsNowhere opening) (ActsAt opening) }
{
    if part.len() < 2 {
        return None;
    }
    match part[part.len() - 2] {
        Entry::Act { action } => Some(action),
        _ => None,
    }
}

/// Compares how many rows are said to answer a SELECT, and the printed ones, with those that are due. Err where a place
/// would be 2^64 or more.
pub(crate) fn compare_rows(
    part: &[Entry],
    due: &Rowset,
    answer: &Rowset,
) -> Result<Answered, NoMemory>
    ensures { (opening : List Entry) → (number : ℕ) → part.now ≡ opening ++ Rows number ∷ []
        → IfOk result (IsCompared (length opening) number due.now answer.now) }
{
    let rows = due.as_slice();
    let said = rows_said(part);
    if said != Some(rows.len() as u64) {
        return Ok(Answered::Wrong(last_place(part)));
    }
    match first_row(rows, answer.as_slice()) {
        None => Ok(Answered::Kept),
        Some(row) => {
            let place = behind(part.len() as u64, row as u64)?;
            Ok(Answered::Wrong(place))
        }
    }
}
