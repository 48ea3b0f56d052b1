//! One line of a block, with its entries and the answers that are left.

ghost use Rattle.std.specs.Prelude.{◌≡◌, ◌-◌, ◌^◌, ◌<◌, ◌≤◌, ◌⊎◌, ◌∷◌, ℕ, List, Option, All, take, drop, length, IfOk};
ghost use Rattle.pfs_admin.specs.AdministrationStates.{State};
ghost use Rattle.pfs_event.specs.declared.entry.Entry.{Entry};
ghost use Rattle.pfs_model.specs.EntryPlaces.{Placed};
ghost use Rattle.pfs_runs.specs.SelectAnswers.{IsAnswered, Selection};
ghost use Rattle.pfs_check_answers.specs.AnswerJudgements.{IsJudged};
ghost use Rattle.pfs_check_answers.specs.BlockSelects.{AreAsked, IsAsked, IsBehind, IsStep};
ghost use Rattle.pfs_check_answers.specs.BlockSelects.{asked_selection, selection_by, selection_of};

use crate::NoMemory;
use crate::answered::Answered;
use crate::answers::{judge_held, judge_stored};
use crate::shows::Shows;
use crate::versions::Versions;
use pfs_check_line_numbers::behind;
use pfs_classes::Setting;
use pfs_event::Entry;
use pfs_exec::{Request, Select, request_of};
use pfs_journal::EntryList;
use pfs_text::{Rowset, Text};
use std::alloc::Global;

/// A SELECT whose rows are read of the store, or one on a table that the administration holds.
#[derive(Drop)]
pub(crate) enum Asked {
    Stored(Select),
    Held(Select),
}

/// How far the lines of a block are judged.
#[derive(Clone, Copy, Debug, PartialEq, Eq)]
pub(crate) struct Spot {
    /// The line of the next entry.
    pub line: u64,
    /// The place of the next entry in its journal.
    pub start: usize,
    /// The place of the next answer.
    pub answer: usize,
}

/// What one line more makes of it.
#[derive(Clone, Copy, Debug, PartialEq, Eq)]
pub(crate) enum Step {
    /// They are judged so far, and none is wrong.
    On(Spot),
    /// This line of the report is the first that is wrong.
    Wrong(u64),
}

// The SELECT that a text is.
fn asked_by(alloc: Global, text: Option<&Text>) -> Result<Option<Asked>, NoMemory>
    ensures { IfOk result (λ asked. asked_selection asked ≡ selection_by text.entry) }
{
    let Some(text) = text else {
        return Ok(None);
    };
    let request = request_of(alloc, text.as_bytes())?;
    match request {
        Request::Query(select) => Ok(Some(Asked::Stored(select))),
        Request::Show(select) => Ok(Some(Asked::Held(select))),
        Request::Refused(_)
        | Request::Truncate(_)
        | Request::Update(_)
        | Request::Insert(_)
        | Request::Delete(_) => Ok(None),
    }
}

fn judge_asked<V: Versions, S: Shows>(
    alloc: Global,
    setting: &Setting,
    versions: &V,
    shows: &S,
    asked: &Asked,
    part: &[Entry],
    answer: &Rowset,
) -> Result<Answered, NoMemory>
    ensures { (all : List Placed) → (content : ℕ → ℕ → List ℕ) → (flags : ℕ → ℕ → ℕ) → (before : ℕ → State)
        → V.knows versions.now all content flags → S.knows shows.now before
        → IsAsked all (selection_of asked.now) part.now answer.now
        → IfOk result (IsJudged setting.now (IsAnswered setting.now content flags before) (selection_of asked.now)
        part.now answer.now) }
{
    match asked {
        Asked::Stored(select) => judge_stored(alloc, setting, versions, select, part, answer),
        Asked::Held(select) => judge_held(alloc, setting, shows, select, part, answer),
    }
}

fn fewer(one: usize, other: usize) -> usize
    ensures low { result ≤ one }
    ensures high { result ≤ other }
    ensures is { (result ≡ one) ⊎ (result ≡ other) }
{
    if one <= other { one } else { other }
}

// How many entries stand from a place to the one behind them, as far as the journal goes.
fn count_between(entries: &EntryList, start: usize, end: usize) -> usize
    ensures { result ≡ length (take (end - start) (drop start entries.now)) }
{
    fewer(end, entries.count()).saturating_sub(start)
}

// These entries.
fn entries_between(
    alloc: Global,
    entries: &EntryList,
    start: usize,
    end: usize,
) -> Result<Vec<Entry>, NoMemory>
    ensures { IfOk result (λ part. part.items ≡ take (end - start) (drop start entries.now)) }
{
    let mut part = Vec::new(alloc);
    for step in 0..count_between(entries, start, end) {
        part.push(entries.entry(start + step))?;
    }
    Ok(part)
}

// Goes on behind a SELECT's entries and the rows of its answer, or tells its fault.
fn behind_select(
    answered: Answered,
    spot: Spot,
    end: usize,
    part: &[Entry],
    answer: &Rowset,
) -> Result<Step, NoMemory>
    requires { spot.answer < 2 ^ 64 - 1 }
    ensures { IfOk result (IsBehind answered spot end (length part.now) (length answer.now)) }
{
    match answered {
        Answered::Kept => {
            let rows = behind(spot.line, part.len() as u64)?;
            let line = behind(rows, answer.as_slice().len() as u64)?;
            Ok(Step::On(Spot {
                line,
                start: end,
                answer: spot.answer + 1,
            }))
        }
        Answered::Wrong(place) => {
            let line = behind(spot.line, place)?;
            Ok(Step::Wrong(line))
        }
    }
}

/// Judges one line more of a block, with its text if it is one of SQL, by the entries up to a place of the journal.
pub(crate) fn judge_line<V: Versions, S: Shows>(
    alloc: Global,
    setting: &Setting,
    versions: &V,
    shows: &S,
    text: Option<&Text>,
    entries: &EntryList,
    end: usize,
    answers: &[Rowset],
    spot: Spot,
) -> Result<Step, NoMemory>
    ensures { (all : List Placed) → (content : ℕ → ℕ → List ℕ) → (flags : ℕ → ℕ → ℕ) → (before : ℕ → State)
        → (selections : List (Option Selection)) → (part : List Entry) → (parts : List (List Entry))
        → V.knows versions.now all content flags → S.knows shows.now before
        → part ≡ take (end - spot.start) (drop spot.start entries.now)
        → AreAsked all (selection_by text.entry ∷ selections) (part ∷ parts) (drop spot.answer answers.now)
        → IfOk result (IsStep all setting.now (IsAnswered setting.now content flags before) answers.now spot end
        (selection_by text.entry) selections part parts) }
{
    let Some(asked) = asked_by(alloc, text)? else {
        let count = count_between(entries, spot.start, end);
        let line = behind(spot.line, count as u64)?;
        return Ok(Step::On(Spot {
            line,
            start: end,
            answer: spot.answer,
        }));
    };
    let Some(answer) = answers.get(spot.answer) else {
        return Ok(Step::Wrong(spot.line));
    };
    let part = entries_between(alloc, entries, spot.start, end)?;
    let entries = part.as_slice();
    let answered = judge_asked(alloc, setting, versions, shows, &asked, entries, answer)?;
    behind_select(answered, spot, end, entries, answer)
}
