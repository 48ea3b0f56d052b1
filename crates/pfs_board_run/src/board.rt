//! A phase over a board, from splitting its actors off to taking them in.

ghost use Rattle.std.specs.Prelude.{◌≡◌, ◌+◌, ◌*◌, ◌<◌, ◌≤◌, [], ℕ, true, All, IfOk, List, length, vec_capacity};
ghost use Rattle.pfs_admin.specs.OpeningState.{opening_flags};
ghost use Rattle.pfs_board_root.specs.Roots.{HasSplit, HasTakenIn, opening_at};
ghost use Rattle.pfs_board_store.specs.RootActors.{Worked};
ghost use Rattle.pfs_matching.specs.ObjectRules.{opening_objects};
ghost use Rattle.pfs_play.specs.Errands.{actions_on};
ghost use Rattle.pfs_script.specs.Marks.{written_out};
ghost use Rattle.pfs_board_run.specs.BoardRuns.{AllMayRun, HasRunPhase, newest_first, share_of_each};
ghost use Rattle.pfs_board_run.specs.JobLists.{AreHandedOut, AreKnownJobs, AreResults, IsHandedOut, IsPaused};
ghost use Rattle.pfs_board_run.specs.JobLists.{publications_left, tickets_left};

use crate::NoMemory;
use pfs_board_admin::Shared;
use pfs_board_root::Root;
use pfs_board_session::{Gate, Seated};
use pfs_classes::Setting;
use pfs_jobs::{Job, play_at_once};
use pfs_levels::Readable;
use pfs_play::written_cost;
use pfs_script::Block;
use pfs_session::{Paused, Session};
use pfs_text::Rowset;
use std::alloc::{AllocError, Global};
use std::sync::Wait;
use std::thread::Threads;

/// The journal entries that a connect, what is settled, and a quit take at most.
const AT_ENDS: u64 = 648;

/// How many publications, and as many tickets, each actor may use: 2^34.
const SHARE: u64 = 17_179_869_184;

/// A session that has played its block, and the answers of its SELECTs, in their order.
#[derive(Drop)]
pub struct Ran {
    pub paused: Paused,
    pub answers: Vec<Rowset>,
}

/// The blocks of a phase, each in the session beside it, all at once: each in a thread of its own where one can be
/// started, over seats that are split off the root in the blocks' order, and are all taken in again. Before each line
/// its session asks the gate. The results come in the order given. The room of all journals is made before any session
/// runs. NoMemory comes before any does, or where memory ran out in one; then the others have run, and nothing more is
/// said of the root.
pub fn run_board<'b, R: Threads + Wait + Sync, G: Gate, N: Shared + Send + Sync>(
    rt: &R,
    gate: &G,
    alloc: Global,
    root: &mut Root<'b, N>,
    setting: &Setting,
    blocks: &[Block],
    sessions: Vec<Session>,
) -> Result<Vec<Ran>, NoMemory>
    requires may { AllMayRun N.setting N.change blocks.now sessions.items }
    requires room { length blocks.now * share_of_each < root.old.seat.allowance }
    requires draws { length blocks.now * share_of_each ≤ root.old.draws.draws }
    ensures ran { IfOk result (λ rans. HasRunPhase setting.now N.setting N.change blocks.now sessions.items rans.items
        root.old root.new) }
{
    let rans = Vec::with_capacity(alloc, blocks.len())?;
    let mut jobs = hand_out(rt, gate, alloc, root, blocks, sessions)?;
    play_at_once(rt, alloc, setting, blocks, &mut jobs);
    if !all_paused(jobs.as_slice()) {
        return Err(AllocError);
    }
    Ok(take_results(root, jobs, rans))
}

// A job for each session, with room for its block's entries and an actor of the next number.
fn hand_out<'a, 'b, R: Wait, G: Gate, N: Shared>(
    rt: &'a R,
    gate: &'a G,
    alloc: Global,
    root: &mut Root<'b, N>,
    blocks: &[Block],
    sessions: Vec<Session>,
) -> Result<Vec<Job<Seated<'a, 'b, R, G, N>>>, NoMemory>
    requires may { AllMayRun N.setting N.change blocks.now sessions.items }
    requires room { length blocks.now * share_of_each < root.old.seat.allowance }
    requires draws { length blocks.now * share_of_each ≤ root.old.draws.draws }
    ensures jobs { IfOk result (λ jobs. AreHandedOut ⟦<Seated<'a, 'b, R, G, N> as Readable>⟧.seen
        (opening_at (opening_flags N.setting opening_objects) root.old share_of_each share_of_each) 1 blocks.now
        sessions.items jobs.items) }
    ensures root { IfOk result (λ _. HasSplit (length blocks.now) share_of_each share_of_each root.old root.new) }
{
    let mut sessions = sessions.into_iter();
    let mut jobs = Vec::with_capacity(alloc, blocks.len())?;
    for block in blocks {
        match sessions.next() {
            Some(session) => {
                let job = hand_one(rt, gate, alloc, root, block, session)?;
                jobs.push_reserved(job);
            }
            None => unreachable!(),
        }
    }
    Ok(jobs)
}

// A job for a session, with room for its block's entries besides, and an actor of the next number.
fn hand_one<'a, 'b, R: Wait, G: Gate, N: Shared>(
    rt: &'a R,
    gate: &'a G,
    alloc: Global,
    root: &mut Root<'b, N>,
    block: &Block,
    session: Session,
) -> Result<Job<Seated<'a, 'b, R, G, N>>, NoMemory>
    requires short { length (written_out block.now.lines) ≤ 200000 }
    requires few { actions_on (written_out block.now.lines) ≤ 200000 }
    requires room { share_of_each < root.old.seat.allowance }
    requires draws { share_of_each ≤ root.old.draws.draws }
    ensures job { IfOk result (λ job. IsHandedOut ⟦<Seated<'a, 'b, R, G, N> as Readable>⟧.seen
        (opening_at (opening_flags N.setting opening_objects) root.old share_of_each share_of_each 1) block.now
        session job) }
    ensures root { IfOk result (λ _. HasSplit 1 share_of_each share_of_each root.old root.new) }
{
    let mut session = session;
    let cost = written_cost(alloc, block.lines.as_slice())?;
    session.reserve(AT_ENDS + cost)?;
    Ok(Job {
        actor: root.split(rt, gate, SHARE, SHARE),
        session: Some(session),
        paused: None,
        answers: Vec::new(alloc),
    })
}

// Whether no session ran out of memory.
fn all_paused<'a, 'b, R: Wait, G: Gate, N: Shared>(jobs: &[Job<Seated<'a, 'b, R, G, N>>]) -> bool
    ensures { result ≡ true → All IsPaused jobs.now }
{
    for job in jobs {
        if job.paused.is_none() {
            return false;
        }
    }
    true
}

// Takes all actors in, in their order, and hands back what their sessions left.
fn take_results<'a, 'b, R: Wait, G: Gate, N: Shared>(
    root: &mut Root<'b, N>,
    jobs: Vec<Job<Seated<'a, 'b, R, G, N>>>,
    rans: Vec<Ran>,
) -> Vec<Ran>
    requires paused { All IsPaused jobs.items }
    requires room { (rans.items ≡ []) × (length jobs.items ≤ vec_capacity rans) }
    requires known { (ws : List Worked) × AreKnownJobs root.old ⟦<Seated<'a, 'b, R, G, N> as Readable>⟧.seen ws
        jobs.items }
    ensures taken { (ws : List Worked) → AreKnownJobs root.old ⟦<Seated<'a, 'b, R, G, N> as Readable>⟧.seen ws
        jobs.entry.items → HasTakenIn N.setting N.change (newest_first ws) root.old root.new }
    ensures back { root.new.seat.allowance ≡ root.old.seat.allowance
        + publications_left ⟦<Seated<'a, 'b, R, G, N> as Readable>⟧.seen jobs.entry.items }
    ensures draws { root.new.draws.draws ≡ root.old.draws.draws
        + tickets_left ⟦<Seated<'a, 'b, R, G, N> as Readable>⟧.seen jobs.entry.items }
    ensures results { AreResults jobs.entry.items result.items }
{
    let mut rans = rans;
    for job in jobs {
        let Job {
            actor,
            session: _,
            paused,
            answers,
        } = job;
        root.take_in(actor);
        match paused {
            Some(paused) => rans.push_reserved(Ran { paused, answers }),
            None => unreachable!(),
        }
    }
    rans
}
