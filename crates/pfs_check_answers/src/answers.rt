//! The answer of a SELECT, judged.

ghost use Rattle.std.specs.Prelude.{ℕ, List, All, IfOk};
ghost use Rattle.pfs_admin.specs.AdministrationStates.{State};
ghost use Rattle.pfs_model.specs.EntryPlaces.{Placed};
ghost use Rattle.pfs_runs.specs.SelectAnswers.{Held, IsAnswered, IsShown, Stored};
ghost use Rattle.pfs_check_answers.specs.AnswerJudgements.{IsJudged};
ghost use Rattle.pfs_check_answers.specs.SelectParts.{IsCounted, IsQueryPart, IsReadAs};
ghost use Rattle.pfs_check_answers.specs.SelectReadings.{NamesHad};

use crate::NoMemory;
use crate::answered::Answered;
use crate::counting::{action_of, between, compare_rows, last_place};
use crate::shows::Shows;
use crate::versions::Versions;
use crate::walking::{Walked, walk_entries};
use pfs_check_line_numbers::behind;
use pfs_classes::Setting;
use pfs_event::Entry;
use pfs_exec::{Select, select};
use pfs_rows::Reading;
use pfs_tables::listed;
use pfs_text::Rowset;
use std::alloc::Global;

// Compares what is said to answer a SELECT with what answers it by these readings, the table's read set.
fn compare_read(
    alloc: Global,
    setting: &Setting,
    query: &Select,
    readings: &[Reading],
    part: &[Entry],
    answer: &Rowset,
) -> Result<Answered, NoMemory>
    ensures { (content : ℕ → ℕ → List ℕ) → (flags : ℕ → ℕ → ℕ) → (before : ℕ → State)
        → All (IsShown content flags) readings.now → IsReadAs setting.now query.now readings.now part.now
        → IfOk result (IsJudged setting.now (IsAnswered setting.now content flags before) (Stored query.now) part.now
        answer.now) }
{
    pfs_exec::laws::one_answer();
    let rows = listed(alloc, setting, query.table, readings)?;
    let due = select(alloc, query, &rows)?;
    compare_rows(part, &due, answer)
}

/// Judges a SELECT that reads the store, by its entries, as its line asks for them and allows them, and the printed
/// rows of its answer. Err where memory runs out.
pub fn judge_stored<V: Versions>(
    alloc: Global,
    setting: &Setting,
    versions: &V,
    query: &Select,
    part: &[Entry],
    answer: &Rowset,
) -> Result<Answered, NoMemory>
    ensures { (all : List Placed) → (content : ℕ → ℕ → List ℕ) → (flags : ℕ → ℕ → ℕ) → (before : ℕ → State)
        → V.knows versions.now all content flags → IsQueryPart part.now → All (NamesHad all) part.now
        → IfOk result (IsJudged setting.now (IsAnswered setting.now content flags before) (Stored query.now) part.now
        answer.now) }
{
    pfs_exec::laws::one_answer();
    pfs_rows::laws::rows();
    let entries = between(part);
    let walked = walk_entries(alloc, setting, versions, query.table, entries)?;
    match walked {
        Walked::Misread(at) => {
            let place = behind(1, at as u64)?;
            Ok(Answered::Wrong(place))
        }
        Walked::Whole(readings) => {
            compare_read(alloc, setting, query, readings.as_slice(), part, answer)
        }
    }
}

/// Judges a SELECT on a table that the administration holds, by its entries, the last of which says how many rows there
/// are, and the printed rows of its answer. Err where memory runs out.
pub fn judge_held<S: Shows>(
    alloc: Global,
    setting: &Setting,
    shows: &S,
    query: &Select,
    part: &[Entry],
    answer: &Rowset,
) -> Result<Answered, NoMemory>
    ensures { (content : ℕ → ℕ → List ℕ) → (flags : ℕ → ℕ → ℕ) → (before : ℕ → State) → S.knows shows.now before
        → IsCounted part.now
        → IfOk result (IsJudged setting.now (IsAnswered setting.now content flags before) (Held query.now) part.now
        answer.now) }
{
    pfs_exec::laws::one_answer();
    let Some(number) = action_of(part) else {
        return Ok(Answered::Wrong(last_place(part)));
    };
    let due = shows.answer(alloc, number, query)?;
    compare_rows(part, &due, answer)
}
