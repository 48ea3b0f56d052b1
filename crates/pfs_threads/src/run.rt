//! A run of a whole script, phase after phase.

ghost use Rattle.std.specs.Prelude.{◌≡◌, ◌++◌, ◌∷◌, [], ℕ, List, None, IfOk, replicate};
ghost use Rattle.pfs_board_opening.specs.Opened.{AreFresh};
ghost use Rattle.pfs_board_phase.specs.BetweenPhases.{IsBetweenPhases};
ghost use Rattle.pfs_law_report.specs.declared.counts.LostEvents.{LostEvents as LostSoFar};
ghost use Rattle.pfs_runs.specs.Runs.{IsRun};
ghost use Rattle.pfs_runs.specs.ScriptLines.{change_in};
ghost use Rattle.pfs_script.specs.Scripts.{IsScript};
ghost use Rattle.pfs_threads.specs.Records.{HasRecorded};

use crate::NoMemory;
use pfs_board_admin::Shared;
use pfs_board_opening::{Picked, Run, RunWords, Tables, open_tables, open_words};
use pfs_board_phase::{BoardRun, run_phase};
use pfs_board_root::Root;
use pfs_board_session::Gate;
use pfs_board_store::Seats;
use pfs_classes::Setting;
use pfs_journal::{PhaseList, Report, ReportParts};
use pfs_law_report::LostEvents;
use pfs_script::Phase;
use pfs_seats::empty_seats;
use std::alloc::Global;
use std::marker::Brand;
use std::sync::Wait;
use std::thread::Threads;

/// The number of the report's format: that of a whole report.
const FORMAT: u64 = 1;

/// A run that ended: its report, and the seats of its root, which hold all that was recorded.
#[derive(Drop)]
pub struct Recorded {
    pub report: Report,
    pub store: Seats,
}

/// Runs a script and reports it. The sessions of each phase go on at once, each in a thread of its own where one can be
/// started, over one slot board; before each line its session asks the gate. The root's seats have recorded just what
/// the report tells, and the root's own readings. Out of memory the run is given up.
pub fn run_threads<R: Threads + Wait + Sync, G: Gate>(
    rt: &R,
    gate: &G,
    alloc: Global,
    setting: &Setting,
    phases: &[Phase],
) -> Result<Recorded, NoMemory>
    requires { (text : List ℕ) × IsScript text setting.now phases.now }
    ensures run { IfOk result (λ recorded. IsRun setting.now phases.now recorded.report) }
    ensures store { IfOk result (λ recorded. HasRecorded setting.now phases.now recorded.report recorded.store) }
{
    let words = open_words(alloc, setting)?;
    run_picked::<R, G, Brand>(rt, gate, alloc, setting, phases, words)
}

// The same of a run whose setting, changes and setup words are picked.
fn run_picked<R: Threads + Wait + Sync, G: Gate, P: Picked>(
    rt: &R,
    gate: &G,
    alloc: Global,
    setting: &Setting,
    phases: &[Phase],
    words: RunWords,
) -> Result<Recorded, NoMemory>
    requires setting { P.setting ≡ setting.now }
    requires change { P.change ≡ change_in phases.now }
    requires run { words.switches.id ≡ P.switches }
    requires fresh { AreFresh setting.now words.switches words.seat words.writer }
    requires script { (text : List ℕ) × IsScript text setting.now phases.now }
    ensures run { IfOk result (λ recorded. IsRun setting.now phases.now recorded.report) }
    ensures store { IfOk result (λ recorded. HasRecorded setting.now phases.now recorded.report recorded.store) }
{
    run_named::<R, G, Run<P>>(rt, gate, alloc, setting, phases, words)
}

// The same of a run that contracts name, over tables of its own.
fn run_named<R: Threads + Wait + Sync, G: Gate, N: Shared + Send + Sync>(
    rt: &R,
    gate: &G,
    alloc: Global,
    setting: &Setting,
    phases: &[Phase],
    words: RunWords,
) -> Result<Recorded, NoMemory>
    requires setting { N.setting ≡ setting.now }
    requires change { N.change ≡ change_in phases.now }
    requires run { words.switches.id ≡ N.switches }
    requires fresh { AreFresh setting.now words.switches words.seat words.writer }
    requires script { (text : List ℕ) × IsScript text setting.now phases.now }
    ensures run { IfOk result (λ recorded. IsRun setting.now phases.now recorded.report) }
    ensures store { IfOk result (λ recorded. HasRecorded setting.now phases.now recorded.report recorded.store) }
{
    pfs_law_phases::laws::begun();
    let (tables, seats): (Tables<N>, Seats) = open_tables(alloc, setting, words)?;
    let root = tables.begin(seats);
    run_phases(rt, gate, alloc, setting, phases, root)
}

// The phases one after another, over a root that has done nothing yet.
fn run_phases<'b, R: Threads + Wait + Sync, G: Gate, N: Shared + Send + Sync>(
    rt: &R,
    gate: &G,
    alloc: Global,
    setting: &Setting,
    phases: &[Phase],
    root: Root<'b, N>,
) -> Result<Recorded, NoMemory>
    requires setting { N.setting ≡ setting.now }
    requires change { N.change ≡ change_in phases.now }
    requires script { (text : List ℕ) × IsScript text setting.now phases.now }
    requires begun { IsBetweenPhases setting.now phases.now N.switches [] phases.now root (replicate 64 None)
        (record { digests = 0; statements = 0; waits = 0 }) [] }
    ensures run { IfOk result (λ recorded. IsRun setting.now phases.now recorded.report) }
    ensures store { IfOk result (λ recorded. HasRecorded setting.now phases.now recorded.report recorded.store) }
{
    pfs_law_phases::laws::run();
    let mut run = BoardRun {
        root,
        seats: empty_seats(alloc)?,
        lost: LostEvents::NONE,
        phases: Vec::new(alloc),
    };
    for phase in phases {
        match run_phase(rt, gate, alloc, setting, phases, phase, run) {
            Ok(next) => run = next,
            Err(fault) => return Err(fault),
        }
    }
    let BoardRun {
        root,
        seats: _,
        lost: _,
        phases: reports,
    } = run;
    let report = Report::new(ReportParts {
        format: FORMAT,
        phases: PhaseList::new(reports),
    });
    Ok(Recorded {
        report,
        store: root.into_seats(),
    })
}
