//! A phase of a script over a board, from its sessions' seats to its report.

ghost use Rattle.std.specs.Prelude.{◌≡◌, ◌<◌, ◌^◌, ◌++◌, ◌∷◌, [], ℕ, List, IfOk};
ghost use Rattle.pfs_runs.specs.ScriptLines.{change_in};
ghost use Rattle.pfs_script.specs.Scripts.{IsScript};
ghost use Rattle.pfs_script.specs.declared.blocks.Phase.{Phase as SaidPhase};
ghost use Rattle.pfs_seats.specs.Seats.{depth_of};
ghost use Rattle.pfs_board_phase.specs.BetweenPhases as spec;
ghost use Rattle.pfs_board_phase.specs.BetweenPhases.{IsBetweenPhases};
ghost use Rattle.pfs_board_phase.specs.PhaseLaws.{HavePlayedPhase, MayPlayPhase};

use crate::results::{Told, keep_results};
use crate::sessions::take_sessions;
use crate::{NoMemory, laws};
use pfs_admin::Lost;
use pfs_board_admin::Shared;
use pfs_board_root::Root;
use pfs_board_run::run_board;
use pfs_board_session::Gate;
use pfs_board_tables::read_tables;
use pfs_classes::Setting;
use pfs_finals::{LostCounters, lost_rows};
use pfs_journal::{BlockList, PhaseParts, PhaseReport};
use pfs_law_report::LostEvents;
use pfs_script::{Block, Phase};
use pfs_session::Paused;
use std::alloc::Global;
use std::sync::Wait;
use std::thread::Threads;

/// A run of a script over a board between two phases.
#[derive(Drop)]
pub struct BoardRun<'b, N: Shared> {
    /// The root of the board, with all seats in.
    pub root: Root<'b, N>,
    /// The sessions: that of number K, from 1 on, has the place K - 1; None before its first block.
    pub seats: Vec<Option<Paused>>,
    /// What was lost of events so far.
    pub lost: LostEvents,
    /// What is reported of the phases that ended.
    pub phases: Vec<PhaseReport>,
}

/// Runs the next phase: its sessions at once, each block in a thread of its own where one can be started, over seats of
/// its own, and each line behind the gate; then the root reads the tables, and the phase is reported. Out of memory the
/// run is given up, and nothing more is said of it.
pub fn run_phase<'b, R: Threads + Wait + Sync, G: Gate, N: Shared + Send + Sync>(
    rt: &R,
    gate: &G,
    alloc: Global,
    setting: &Setting,
    phases: &[Phase],
    phase: &Phase,
    run: BoardRun<'b, N>,
) -> Result<BoardRun<'b, N>, NoMemory>
    requires setting { N.setting ≡ setting.now }
    requires change { N.change ≡ change_in phases.now }
    requires script { (text : List ℕ) × IsScript text setting.now phases.now }
    requires here { (before : List SaidPhase) × (after : List SaidPhase)
        × (phases.now ≡ before ++ phase.now ∷ after)
        × IsBetweenPhases setting.now phases.now N.switches before (phase.now ∷ after) run.root run.seats.items run.lost
        run.phases.items }
    ensures { IfOk result (λ next. (before : List SaidPhase) → (after : List SaidPhase)
        → phases.now ≡ before ++ phase.now ∷ after
        → IsBetweenPhases setting.now phases.now N.switches before (phase.now ∷ after) run.entry.root
        run.entry.seats.items run.entry.lost run.entry.phases.items
        → IsBetweenPhases setting.now phases.now N.switches (before ++ phase.now ∷ []) after next.root next.seats.items
        next.lost next.phases.items) }
{
    pfs_law_script::blocks::lines();
    laws::begins();
    laws::played();
    let BoardRun {
        mut root,
        mut seats,
        lost,
        phases: mut reports,
    } = run;
    let played = play_blocks(
        rt,
        gate,
        alloc,
        setting,
        phases,
        phase.blocks.as_slice(),
        &mut root,
        &mut seats,
        lost,
    )?;
    let Told { blocks, lost } = played;
    let (root, end) = read_tables(alloc, setting, root)?;
    let counted = lost_rows(alloc, setting, &counters_of(&end.lost, lost))?;
    let report = PhaseReport::new(PhaseParts {
        number: reports.len() as u64 + 1,
        blocks: BlockList::new(blocks),
        tables: end.tables,
        lost: counted,
    });
    reports.push(report)?;
    Ok(BoardRun {
        root,
        seats,
        lost,
        phases: reports,
    })
}

// The sessions of these blocks play them at once, from their seats, and wait there again.
fn play_blocks<'b, R: Threads + Wait + Sync, G: Gate, N: Shared + Send + Sync>(
    rt: &R,
    gate: &G,
    alloc: Global,
    setting: &Setting,
    phases: &[Phase],
    blocks: &[Block],
    root: &mut Root<'b, N>,
    seats: &mut Vec<Option<Paused>>,
    lost: LostEvents,
) -> Result<Told, NoMemory>
    requires setting { N.setting ≡ setting.now }
    requires few { (session : ℕ) → depth_of phases.now session < 2 ^ 32 }
    requires may { MayPlayPhase setting.now N.change phases.now blocks.now root.old seats.old.items lost }
    ensures { IfOk result (λ told. HavePlayedPhase setting.now N.change phases.now blocks.now root.old root.new
        seats.old.items seats.new.items lost told.lost told.blocks.items) }
{
    let sessions = take_sessions(alloc, setting, phases, seats, blocks)?;
    let rans = run_board(rt, gate, alloc, root, setting, blocks, sessions)?;
    keep_results(alloc, blocks, rans, seats, lost)
}

// What found no place of containers, and what was lost of events.
fn counters_of(lost: &Lost, events: LostEvents) -> LostCounters
    ensures { result ≡ spec.counters_of lost.now events }
{
    LostCounters {
        threads: lost.threads,
        accounts: lost.accounts,
        users: lost.users,
        hosts: lost.hosts,
        digests: events.digests,
        statements: events.statements,
        waits: events.waits,
    }
}
