//! The sessions of a phase at once.

ghost use Rattle.std.specs.Prelude.{ℕ, ◌≡◌, ◌<◌, List, length};
ghost use Rattle.std.specs.Thread.{IsSync};
ghost use denote.Param.Send.{IsSend};
ghost use Rattle.pfs_jobs.specs.Jobs.{AreWaiting, HaveRun, HasRun, IsWaiting};

use pfs_actor::Actor;
use pfs_blocks::play_block;
use pfs_classes::Setting;
use pfs_script::Block;
use pfs_session::{Paused, Session};
use pfs_text::Rowset;
use std::alloc::Global;
use std::thread::{Threads, join_mut};

/// A session that is to play a block, with the actor over which it does so: what a thread of its own plays. Before that
/// it has the session, then the session paused, or neither where memory ran out. The answers of the block's SELECTs
/// come behind those that are there.
#[derive(Drop)]
pub struct Job<A: Actor> {
    pub actor: A,
    pub session: Option<Session>,
    pub paused: Option<Paused>,
    pub answers: Vec<Rowset>,
}

// Plays a block in its session. Out of memory there is no session any more.
fn play_job<A: Actor>(alloc: Global, setting: &Setting, block: &Block, job: &mut Job<A>)
    requires waiting { IsWaiting A.setting A.change A.seen block.now job.old }
    ensures ran { HasRun setting.now A.setting A.change A.seen block.now job.old job.new }
{
    match job.session.take() {
        Some(session) => {
            job.paused = play_block(
                alloc,
                setting,
                session,
                &mut job.actor,
                &mut job.answers,
                block,
            )
            .ok();
        }
        None => {}
    }
}

/// Plays blocks at once, each by the job in its place, in a thread of its own; where no thread can be started the
/// caller plays it. Where memory runs out in a session the others go on. All threads have ended then.
#[cycle(halves)]
pub fn play_all<R: Threads + Sync, A: Actor + Send>(
    rt: &R,
    alloc: Global,
    setting: &Setting,
    blocks: &[Block],
    jobs: &mut [Job<A>],
)
    requires waiting { AreWaiting A.setting A.change A.seen blocks.now jobs.old }
    ensures ran { HaveRun setting.now A.setting A.change A.seen blocks.now jobs.old jobs.new }
{
    if jobs.len() < 2 {
        play_at_most_one(alloc, setting, blocks, jobs);
        return;
    }
    let half = jobs.len() / 2;
    let (these, those) = blocks.split_at(half);
    let (front, back) = jobs.split_at_mut(half);
    play_both(rt, alloc, setting, these, those, front, back);
}

// Plays two halves at once, one of them in a thread of its own.
#[cycle(halves)]
fn play_both<R: Threads + Sync, A: Actor + Send>(
    rt: &R,
    alloc: Global,
    setting: &Setting,
    these: &[Block],
    those: &[Block],
    front: &mut [Job<A>],
    back: &mut [Job<A>],
)
    requires some { (0 < length front.old) × (0 < length back.old) }
    requires front { AreWaiting A.setting A.change A.seen these.now front.old }
    requires back { AreWaiting A.setting A.change A.seen those.now back.old }
    ensures front { HaveRun setting.now A.setting A.change A.seen these.now front.old front.new }
    ensures back { HaveRun setting.now A.setting A.change A.seen those.now back.old back.new }
{
    join_mut(
        rt,
        &mut ||
            requires { IsSync R.row × IsSend A.row × AreWaiting A.setting A.change A.seen these.now front.now }
            ensures { HaveRun setting.entry.now A.setting A.change A.seen these.entry.now front.entry.now
                front.exit.now }
        { play_all(rt, alloc, setting, these, front) },
        &mut ||
            requires { IsSync R.row × IsSend A.row × AreWaiting A.setting A.change A.seen those.now back.now }
            ensures { HaveRun setting.entry.now A.setting A.change A.seen those.entry.now back.entry.now
                back.exit.now }
        { play_all(rt, alloc, setting, those, back) },
    );
}

// Plays the block of one job, or of none.
fn play_at_most_one<A: Actor>(
    alloc: Global,
    setting: &Setting,
    blocks: &[Block],
    jobs: &mut [Job<A>],
)
    requires short { length jobs.old < 2 }
    requires waiting { AreWaiting A.setting A.change A.seen blocks.now jobs.old }
    ensures ran { HaveRun setting.now A.setting A.change A.seen blocks.now jobs.old jobs.new }
{
    if !jobs.is_empty() {
        play_job(alloc, setting, &blocks[0], &mut jobs[0]);
    }
}

/// The same of all jobs of a list.
pub fn play_at_once<R: Threads + Sync, A: Actor + Send>(
    rt: &R,
    alloc: Global,
    setting: &Setting,
    blocks: &[Block],
    jobs: &mut Vec<Job<A>>,
)
    requires waiting { AreWaiting A.setting A.change A.seen blocks.now jobs.old.items }
    ensures ran { HaveRun setting.now A.setting A.change A.seen blocks.now jobs.old.items jobs.new.items }
{
    play_all(rt, alloc, setting, blocks, jobs.as_mut_slice());
}
