//! A report: its phases, each with its blocks, tables and counters.

ghost use Rattle.std.specs.Prelude.{◌≡◌};

use crate::blocks::BlockList;
use crate::checks::is_phase;
use crate::values::{LostList, TableList};
use std::marker::Model;

/// The parts of a phase.
#[derive(Drop)]
pub struct PhaseParts {
    /// The phase's number.
    pub number: u64,
    /// Its blocks, in order.
    pub blocks: BlockList,
    /// The tables at its end, in order.
    pub tables: TableList,
    /// The counters of what was lost, in order.
    pub lost: LostList,
}

/// A phase that a report can have: names have letters, digits and `_` alone, texts the bytes 9 and
/// 32 to 126, each table has a row, and each answer has so many rows as its entry says.
#[derive(Drop)]
pub struct PhaseReport {
    parts: PhaseParts,
}

impl Model for PhaseReport {
    ghost use Rattle.pfs_journal.specs.declared.report.PhaseParts.{PhaseParts};

    ghost Value = { PhaseParts };

    ghost use Rattle.pfs_journal.specs.Reports.{IsPhase};

    ghost view = { λ phase. phase.parts };

    ghost invariant = { λ phase. IsPhase phase.parts };
}

impl PhaseReport {
    ghost use Rattle.std.specs.Prelude.{◌≡◌, MatchOption};
    ghost use Rattle.pfs_journal.specs.Reports.{IsPhase};

    /// The phase of these parts. It takes no memory.
    pub fn new(parts: PhaseParts) -> PhaseReport
        requires { IsPhase parts }
        ensures { result ≡ parts }
    {
        PhaseReport { parts }
    }

    /// The phase of these parts, or None where a report can't have them. It takes no memory.
    pub fn checked(parts: PhaseParts) -> Option<PhaseReport>
        ensures { MatchOption result (¬ IsPhase parts) (λ phase. (phase ≡ parts) × IsPhase parts) }
    {
        if is_phase(&parts) {
            Some(PhaseReport::new(parts))
        } else {
            None
        }
    }

    /// Its parts.
    pub fn parts(&self) -> &PhaseParts
        ensures value { result.now ≡ self.now }
        ensures good { IsPhase self.now }
    {
        &self.parts
    }

    /// Its parts, given back without taking memory.
    pub fn into_parts(self) -> PhaseParts
        ensures value { result ≡ self }
        ensures good { IsPhase self }
    {
        self.parts
    }
}

/// The phases of a report, in order.
#[derive(Drop)]
pub struct PhaseList {
    items: Vec<PhaseReport>,
}

impl Model for PhaseList {
    ghost use Rattle.std.specs.Prelude.{List};
    ghost use Rattle.pfs_journal.specs.declared.report.PhaseParts.{PhaseParts};

    ghost Value = { List PhaseParts };

    ghost view = { λ list. list.items.items };
}

impl PhaseList {
    /// The list of these phases. It takes no memory.
    pub fn new(items: Vec<PhaseReport>) -> PhaseList
        ensures { result ≡ items.items }
    {
        PhaseList { items }
    }

    /// The phases, in order.
    pub fn as_slice(&self) -> &[PhaseReport]
        ensures { result.now ≡ self.now }
    {
        self.items.as_slice()
    }

    /// The phases, given back without taking memory.
    pub fn into_vec(self) -> Vec<PhaseReport>
        ensures { result.items ≡ self }
    {
        self.items
    }
}

/// The parts of a report.
#[derive(Drop)]
pub struct ReportParts {
    /// The number of its format.
    pub format: u64,
    /// Its phases, in order.
    pub phases: PhaseList,
}

/// A report that the grammar spells. The number of its format is 1.
#[derive(Drop)]
pub struct Report {
    parts: ReportParts,
}

impl Model for Report {
    ghost use Rattle.pfs_journal.specs.declared.report.ReportParts.{ReportParts};

    ghost Value = { ReportParts };

    ghost use Rattle.pfs_journal.specs.Reports.{IsReport};

    ghost view = { λ report. report.parts };

    ghost invariant = { λ report. IsReport report.parts };
}

impl Report {
    ghost use Rattle.pfs_journal.specs.Reports.{IsReport};

    /// The report of these parts. It takes no memory.
    pub fn new(parts: ReportParts) -> Report
        requires { IsReport parts }
        ensures { result ≡ parts }
    {
        Report { parts }
    }

    /// Its parts.
    pub fn parts(&self) -> &ReportParts
        ensures value { result.now ≡ self.now }
        ensures good { IsReport self.now }
    {
        &self.parts
    }
}
