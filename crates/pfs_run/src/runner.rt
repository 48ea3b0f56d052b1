//! A run of a script: its store, its sessions, and what is reported of it so far.

ghost use Rattle.std.specs.Prelude.{◌≡◌, ◌<◌, ◌≤◌, ◌+◌, ◌++◌, ◌∷◌, [], ℕ, List, IfOk, OnOk, length};
ghost use Rattle.std.specs.List.{All};
ghost use Rattle.pfs_law_script.specs.BlocksAhead.{ahead_of, block_at};
ghost use Rattle.pfs_law_script.specs.Course.{numbered};
ghost use Rattle.pfs_admin.specs.Fold.{state_of};
ghost use Rattle.pfs_containers.specs.ContainerState.{lost_in};
ghost use Rattle.pfs_journal.specs.Reports.{IsText};
ghost use Rattle.pfs_law_report.specs.ReportableRuns.{IsNamedTable};
ghost use Rattle.pfs_levels.specs.Calls.{Call, Opening};
ghost use Rattle.pfs_levels.specs.PlainStore.{labels_after};
ghost use Rattle.pfs_script.specs.Scripts.{IsScript};
ghost use Rattle.pfs_script.specs.declared.blocks.Block.{Block as Said};
ghost use Rattle.pfs_script.specs.declared.blocks.Phase.{Phase as SaidPhase};
ghost use Rattle.pfs_runs.specs.ScriptLines.{change_in};
ghost use Rattle.pfs_run.specs.RunPositions.{IsAlong, position, standing};

use crate::NoMemory;
use pfs_actor::PlainActor;
use pfs_admin::Named;
use pfs_blocks::play_block;
use pfs_classes::Setting;
use pfs_finals::{LostCounters, final_tables, lost_rows};
use pfs_journal::{AnswerList, BlockList, BlockReport, EntryList, PhaseParts, PhaseReport};
use pfs_law_report::{LostEvents, count_lost};
use pfs_levels::Readable;
use pfs_play::written_cost;
use pfs_script::{Block, Phase};
use pfs_seats::{empty_seats, keep_seat, take_seat};
use pfs_session::Paused;
use std::alloc::Global;

/// The journal entries that a connect, what is settled, and a quit take at most.
const AT_ENDS: u64 = 648;

/// The sessions of a run, and what is reported of it so far.
#[derive(Drop)]
pub struct Progress {
    // The session of number K, from 1 on, has the place K - 1; None before its first block.
    seats: Vec<Option<Paused>>,
    lost: LostEvents,
    // Of the phase under way.
    blocks: Vec<BlockReport>,
    // Of the phases that ended.
    phases: Vec<PhaseReport>,
}

/// A run between two blocks.
pub struct Runner<N: Named> {
    alloc: Global,
    actor: PlainActor<N>,
    progress: Progress,
}

impl<N: Named> Drop for Runner<N> {
    fn drop(self) {
        let Runner {
            alloc: _,
            actor: _,
            progress: _,
        } = self;
    }
}

impl<N: Named> Runner<N> {
    /// Nothing done yet: the store and the administration as the setting opens them.
    pub fn open(alloc: Global, setting: &Setting) -> Result<Runner<N>, NoMemory>
        requires setting { N.setting ≡ setting.now }
        ensures { IfOk result (λ runner. (phases : List SaidPhase) → IsAlong setting.now phases (position [] []
            (numbered 1 phases)) (standing (⟦<PlainActor<N> as Readable>⟧.seen runner.actor) runner.progress)) }
    {
        pfs_law_script::runs::no_course();
        Ok(Runner {
            alloc,
            actor: PlainActor::open(alloc, setting)?,
            progress: Progress {
                seats: empty_seats(alloc)?,
                lost: LostEvents::NONE,
                blocks: Vec::new(alloc),
                phases: Vec::new(alloc),
            },
        })
    }

    /// Plays the next block of the script in its session, and reports its journal and its answers.
    pub fn play(
        &mut self,
        setting: &Setting,
        phases: &[Phase],
        block: &Block,
    ) -> Result<(), NoMemory>
        requires setting { N.setting ≡ setting.now }
        requires change { N.change ≡ change_in phases.now }
        requires script { (text : List ℕ) × IsScript text setting.now phases.now }
        requires here { (before : List SaidPhase) × (first : List Said) × (others : List Said)
            × (after : List SaidPhase)
            × (phases.now ≡ before ++ record { blocks = first ++ block.now ∷ others } ∷ after)
            × IsAlong setting.now phases.now
            (position before first (block_at before block.now ∷ ahead_of before others after))
            (standing (⟦<PlainActor<N> as Readable>⟧.seen self.old.actor) self.old.progress) }
        ensures { OnOk result ((before : List SaidPhase) → (first : List Said) → (others : List Said)
            → (after : List SaidPhase)
            → phases.now ≡ before ++ record { blocks = first ++ block.now ∷ others } ∷ after
            → IsAlong setting.now phases.now
            (position before first (block_at before block.now ∷ ahead_of before others after))
            (standing (⟦<PlainActor<N> as Readable>⟧.seen self.old.actor) self.old.progress)
            → IsAlong setting.now phases.now (position before (first ++ block.now ∷ []) (ahead_of before others after))
            (standing (⟦<PlainActor<N> as Readable>⟧.seen self.new.actor) self.new.progress)) }
    {
        pfs_law_script::blocks::playable();
        pfs_law_script::blocks::few();
        pfs_law_script::blocks::actions();
        pfs_law_script::blocks::lines();
        pfs_law_script::blocks::named();
        let mut session = take_seat(
            self.alloc,
            setting,
            phases,
            &mut self.progress.seats,
            block.session,
        )?;
        let cost = written_cost(self.alloc, block.lines.as_slice())?;
        session.reserve(AT_ENDS + cost)?;
        let mut answers = Vec::new(self.alloc);
        let mut paused = play_block(
            self.alloc,
            setting,
            session,
            &mut self.actor,
            &mut answers,
            block,
        )?;
        let log = paused.take_log();
        keep_seat(&mut self.progress.seats, block.session, paused);
        self.progress.lost = count_lost(&log, self.progress.lost);
        self.progress.blocks.push(BlockReport {
            session: block.session,
            entries: EntryList::new(log),
            answers: AnswerList::new(answers),
        })?;
        Ok(())
    }

    /// Ends the phase that stands behind those that ended: reads its tables and counters, and reports it.
    pub fn end_phase(&mut self, setting: &Setting) -> Result<(), NoMemory>
        requires setting { N.setting ≡ setting.now }
        requires named { All IsText setting.now.names }
        requires texts { All (λ digest. IsText digest.text) setting.now.digests }
        requires tables { All IsNamedTable setting.now.tables }
        requires here { (text : List ℕ) × (phases : List SaidPhase) × (before : List SaidPhase) × (first : List Said)
            × (after : List SaidPhase) × IsScript text setting.now phases × (N.change ≡ change_in phases)
            × IsAlong setting.now phases (position before first (ahead_of before [] after))
            (standing (⟦<PlainActor<N> as Readable>⟧.seen self.old.actor) self.old.progress) }
        ensures { OnOk result ((phases : List SaidPhase) → (before : List SaidPhase) → (first : List Said)
            → (after : List SaidPhase) → N.change ≡ change_in phases
            → IsAlong setting.now phases (position before first (ahead_of before [] after))
            (standing (⟦<PlainActor<N> as Readable>⟧.seen self.old.actor) self.old.progress)
            → IsAlong setting.now phases (position (before ++ record { blocks = first } ∷ []) []
            (numbered (1 + length (before ++ record { blocks = first } ∷ [])) after))
            (standing (⟦<PlainActor<N> as Readable>⟧.seen self.new.actor) self.new.progress)) }
    {
        pfs_law_report::report_values::tables();
        pfs_law_plain::journals::alone();
        pfs_law_report::report_values::blocks();
        let number = self.progress.phases.len() as u64 + 1;
        let tables = final_tables(self.alloc, setting, &mut self.actor)?;
        let lost = lost_rows(self.alloc, setting, &self.counters())?;
        let empty = Vec::new(self.alloc);
        let blocks = std::mem::replace(&mut self.progress.blocks, empty);
        let report = PhaseReport::new(PhaseParts {
            number,
            blocks: BlockList::new(blocks),
            tables,
            lost,
        });
        self.progress.phases.push(report)?;
        Ok(())
    }

    // What was lost so far: of containers by the labels of the actions that were done.
    fn counters(&self) -> LostCounters
        ensures containers { (start : Opening) → (calls : List Call)
            → (⟦<PlainActor<N> as Readable>⟧.seen self.now.actor).reached start calls
            → lost_in (state_of N.setting N.change (labels_after calls)).kept.now ≡ record {
              threads = result.threads;
              accounts = result.accounts;
              users = result.users;
              hosts = result.hosts;
            } }
        ensures digests { result.digests ≡ self.now.progress.lost.digests }
        ensures statements { result.statements ≡ self.now.progress.lost.statements }
        ensures waits { result.waits ≡ self.now.progress.lost.waits }
    {
        let lost = self.actor.lost();
        LostCounters {
            threads: lost.threads,
            accounts: lost.accounts,
            users: lost.users,
            hosts: lost.hosts,
            digests: self.progress.lost.digests,
            statements: self.progress.lost.statements,
            waits: self.progress.lost.waits,
        }
    }

    /// What is reported of the phases that ended.
    pub fn into_phases(self) -> Vec<PhaseReport>
        ensures { result.items ≡ self.progress.phases.items }
    {
        let Runner {
            alloc: _,
            actor: _,
            progress,
        } = self;
        progress.phases
    }
}
