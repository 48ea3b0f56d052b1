//! How the texts that a session asked were answered, as its journal tells.

ghost use Rattle.std.specs.Prelude.{◌≡◌, ◌++◌, ◌+◌, ◌<◌, ◌^◌, length, OnOk, IfOk};
ghost use Rattle.pfs_view.specs.TextOutcomes.{answers_behind as spec_answers_behind, outcome_on, outcomes_behind as spec_outcomes_behind, outcomes_of as spec_outcomes_of};

use crate::NoMemory;
use pfs_event::Entry;
use pfs_journal::EntryList;
use std::alloc::Global;

/// The answer to a text of SQL.
#[derive(Clone, Copy, Debug, PartialEq, Eq)]
pub(crate) enum Outcome {
    /// Rows: those of the answer at this place of the block's.
    Rows(usize),
    /// A change that met so many rows.
    Changed(u64),
    /// A refusal by the error of this number.
    Refused(u64),
}

fn put_outcome(outcomes: &mut Vec<Outcome>, answers: usize, entry: &Entry) -> Result<(), NoMemory>
    ensures { OnOk result (outcomes.new.items ≡ outcomes.old.items ++ outcome_on answers entry.now) }
{
    match entry {
        Entry::Rows { .. } => outcomes.push(Outcome::Rows(answers))?,
        Entry::Reply { number } => outcomes.push(Outcome::Changed(*number))?,
        Entry::Error { number } => outcomes.push(Outcome::Refused(*number))?,
        _ => {}
    }
    Ok(())
}

fn answers_behind(answers: usize, entry: &Entry) -> usize
    requires { answers + 1 < 2 ^ 64 }
    ensures { result ≡ spec_answers_behind answers entry.now }
{
    match entry {
        Entry::Rows { .. } => answers + 1,
        _ => answers,
    }
}

/// The answers to the texts that a session asked, in order.
pub(crate) fn outcomes_of(alloc: Global, entries: &EntryList) -> Result<Vec<Outcome>, NoMemory>
    ensures { IfOk result (λ outcomes. outcomes.items ≡ spec_outcomes_of entries.now) }
{
    let mut outcomes = Vec::new(alloc);
    let mut answers = 0;
    for place in 0..entries.count() {
        let entry = entries.entry(place);
        put_outcome(&mut outcomes, answers, &entry)?;
        answers = answers_behind(answers, &entry);
    }
    Ok(outcomes)
}

fn outcomes_behind(count: usize, entry: &Entry) -> usize
    requires { count + 1 < 2 ^ 64 }
    ensures { result ≡ spec_outcomes_behind count entry.now }
{
    match entry {
        Entry::Rows { .. } | Entry::Reply { .. } | Entry::Error { .. } => count + 1,
        _ => count,
    }
}

/// How many texts are answered. It takes no memory.
pub(crate) fn outcome_count(entries: &EntryList) -> usize
    ensures { result ≡ length (spec_outcomes_of entries.now) }
{
    let mut count = 0;
    for place in 0..entries.count() {
        let entry = entries.entry(place);
        count = outcomes_behind(count, &entry);
    }
    count
}
