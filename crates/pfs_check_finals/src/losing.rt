//! What was lost in each phase, and how many actions began there.

ghost use Rattle.std.specs.Prelude.{ℕ, ◌≡◌, ◌+◌, ◌<◌, ◌++◌, ◌∷◌, [], List, cond, length, slice_index_or, IfOk, OnOk};
ghost use Rattle.pfs_check_cut.specs.CutReports.{phases_by};
ghost use Rattle.pfs_check_faults.specs.ReportCases.{Case, Findings, entries_of};
ghost use Rattle.pfs_model.specs.EntryPlaces.{Placed};
ghost use Rattle.pfs_runs.specs.PhaseFinals.{ends_events, is_unplaced};
ghost use Rattle.pfs_check_finals.specs.LostCounts.{AreCounted, AreLosses, acts};
ghost use Rattle.pfs_check_finals.specs.LostCounts.{loses_statement, loses_wait, no_losses};

use crate::NoMemory;
use pfs_check_cut::CutPhase;
use pfs_check_visits::visit_report;
use pfs_check_walk::{Spot, Track, Visit};
use pfs_event::{Entry, Verdict};
use pfs_journal::ReportParts;
use pfs_model::Line;
use pfs_rows::DIGEST_NULL;
use std::alloc::{AllocError, Global};

/// How many actions began, and how many digests, statements and waits were lost.
#[derive(Clone, Copy, Debug, PartialEq, Eq)]
pub(crate) struct Losses {
    pub actions: u64,
    pub digests: u64,
    pub statements: u64,
    pub waits: u64,
}

fn plus(one: u64, other: u64) -> Result<u64, NoMemory>
    ensures { IfOk result (λ sum. sum ≡ one + other) }
{
    match one.checked_add(other) {
        Some(sum) => Ok(sum),
        None => Err(AllocError),
    }
}

fn none_lost() -> Losses
    ensures { result ≡ no_losses }
{
    Losses {
        actions: 0,
        digests: 0,
        statements: 0,
        waits: 0,
    }
}

impl Losses {
    /// Both together. Err where a sum would be 2^64 or more: no memory holds so many entries.
    pub(crate) fn plus(self, more: Losses) -> Result<Losses, NoMemory>
        ensures { (some : List Placed) → (others : List Placed) → AreLosses self some → AreLosses more others
            → IfOk result (λ sum. AreLosses sum (some ++ others)) }
    {
        let actions = plus(self.actions, more.actions)?;
        let digests = plus(self.digests, more.digests)?;
        let statements = plus(self.statements, more.statements)?;
        let waits = plus(self.waits, more.waits)?;
        Ok(Losses {
            actions,
            digests,
            statements,
            waits,
        })
    }
}

fn bit(is: bool) -> u64
    ensures { result ≡ cond is 1 0 }
{
    if is { 1 } else { 0 }
}

// Whether an entry begins an action.
fn acts(entry: &Entry) -> bool
    ensures { result ≡ acts entry.now }
{
    matches!(*entry, Entry::Act { .. } | Entry::Connect { .. })
}

// Whether events end in a line.
fn ends_events(line: &Line) -> bool
    ensures { result ≡ ends_events line.now }
{
    matches!(*line, Line::Stage { .. } | Line::StageEnd | Line::End)
}

// Whether an entry brings an event that ends, or not, to the row of the digests without a place.
fn is_unplaced(ends: bool, entry: &Entry) -> bool
    ensures { result ≡ is_unplaced ends entry.now }
{
    match *entry {
        Entry::Add { row, .. } | Entry::Held { row, .. } => ends && row == DIGEST_NULL,
        _ => false,
    }
}

fn loses_statement(entry: &Entry) -> bool
    ensures { result ≡ loses_statement entry.now }
{
    match *entry {
        Entry::Start { verdict, .. } => matches!(verdict, Verdict::LostNested),
        _ => false,
    }
}

fn loses_wait(entry: &Entry) -> bool
    ensures { result ≡ loses_wait entry.now }
{
    match *entry {
        Entry::Start { verdict, .. } => matches!(verdict, Verdict::LostLocker),
        _ => false,
    }
}

// What an entry of a line says was lost.
fn losses_at(line: &Line, entry: &Entry) -> Losses
    ensures { (place : Placed) → place.line ≡ line.now → place.entry ≡ entry.now → AreLosses result (place ∷ []) }
{
    let ends = ends_events(line);
    Losses {
        actions: bit(acts(entry)),
        digests: bit(is_unplaced(ends, entry)),
        statements: bit(loses_statement(entry)),
        waits: bit(loses_wait(entry)),
    }
}

/// Counts what is lost, phase by phase, and asks nothing.
#[derive(Drop)]
pub(crate) struct Losing {
    // By the number of the phase.
    phases: Vec<Losses>,
}

/// What was lost in the phase of this number; nothing where nobody counted.
pub(crate) fn lost_in_phase(phases: &[Losses], phase: usize) -> Losses
    ensures { result ≡ slice_index_or phases.now phase no_losses }
{
    match phases.get(phase) {
        Some(losses) => *losses,
        None => none_lost(),
    }
}

impl Losing {
    // Room for the phase of this number.
    fn reach(&mut self, phase: usize) -> Result<(), NoMemory>
        ensures room { OnOk result (phase < length self.new.phases.items) }
        ensures same { (at : ℕ) → OnOk result (slice_index_or self.new.phases.items at no_losses
            ≡ slice_index_or self.old.phases.items at no_losses) }
    {
        while self.phases.len() <= phase {
            self.phases.push(none_lost())?;
        }
        Ok(())
    }

    fn note(&mut self, phase: usize, more: Losses) -> Result<(), NoMemory>
        ensures { (earlier : List Placed) → (place : Placed) → place.phase ≡ phase → AreLosses more (place ∷ [])
            → AreCounted self.old.phases.items earlier
            → OnOk result (AreCounted self.new.phases.items (place ∷ earlier)) }
    {
        self.reach(phase)?;
        let so_far = self.phases[phase];
        let sum = more.plus(so_far)?;
        self.phases[phase] = sum;
        Ok(())
    }
}

impl Visit for Losing {
    ghost use Rattle.pfs_check_finals.specs.LostCounts.{AreCounted};

    ghost rule = { λ case found earlier place. Unit {0} };

    ghost knows = { λ visitor case found earlier. AreCounted visitor.phases.items earlier };

    fn visit<T: Track>(
        &mut self,
        spot: Spot,
        line: &Line,
        _track: &T,
        entry: &Entry,
    ) -> Result<bool, NoMemory> {
        let more = losses_at(line, entry);
        self.note(spot.phase as usize, more)?;
        Ok(true)
    }
}

/// What was lost in each phase of a report that is cut at these places, by the number of the phase. Err where memory
/// runs out.
pub(crate) fn collect_losses(
    alloc: Global,
    cuts: &[CutPhase],
    report: &ReportParts,
) -> Result<Vec<Losses>, NoMemory>
    ensures { (case : Case) → (found : Findings) → found.blocks ≡ phases_by cuts.now report.now.phases
        → IfOk result (λ phases. AreCounted phases.items (entries_of found)) }
{
    let mut losing = Losing {
        phases: Vec::new(alloc),
    };
    let _visited = visit_report(alloc, &mut losing, cuts, report)?;
    Ok(losing.phases)
}
