//! A block of a script in its session.

ghost use Rattle.std.specs.Prelude.{◌≡◌, ◌≤◌, ◌+◌, ◌++◌, ◌∷◌, List, [], false, IfSome, IfOk, OnOk, MatchOption, length};
ghost use Rattle.pfs_levels.specs.Views.{Used};
ghost use Rattle.pfs_law_plain.specs.LineSteps.{kinds_at};
ghost use Rattle.pfs_actor.specs.ActionAsks.{MayAct, MayConnect};
ghost use Rattle.pfs_play.specs.Errands.{LabelsName, NamesLines, StagesLie, kinds_after};
ghost use Rattle.pfs_play.specs.Needs.{Ready};
ghost use Rattle.pfs_runs.specs.ScriptLines.{changes_in, connect_changes};
ghost use Rattle.pfs_script.specs.Marks.{written_out};
ghost use Rattle.pfs_script.specs.declared.blocks.BlockLine.{BlockLine as Line};
ghost use Rattle.pfs_script.specs.declared.blocks.BlockLine.TheVariants as said;
ghost use Rattle.pfs_session.specs.SessionStates.{nothing_held};
ghost use Rattle.pfs_classes.specs.declared.setting.Setting.{Setting as Fixed};
ghost use Rattle.pfs_runs.specs.SelectAnswers.{Answer, connect_selections};
ghost use Rattle.pfs_law_script.specs.Course.{connecting};
ghost use Rattle.pfs_blocks.specs.BlockNeeds.{Within, need_of_block, need_to_end};
ghost use Rattle.pfs_blocks.specs.PlayedBlocks.{HasEnded, HasMet, HasPlayed, MayEnd};

use pfs_actor::Actor;
use pfs_classes::Setting;
use pfs_play::{NoMemory, play_written};
use pfs_script::{Block, BlockLine, Connect};
use pfs_session::{Paused, Session};
use pfs_text::Rowset;
use std::alloc::Global;

// Begins the block's lines, and connects the session where its block gives names.
fn connect_by<A: Actor>(session: &mut Session, actor: &mut A, names: Option<Connect>)
    requires named { LabelsName A.change session.old.state.number session.old.state.actions (connect_changes names) }
    requires may { IfSome names (λ connect. MayConnect session.old.state A.setting connect.user connect.host) }
    requires free { session.old.state.held ≡ nothing_held }
    requires acts { MayAct 5 6 (A.seen actor.old) session.old.journal }
    ensures did { (setting : Fixed) → (answers : List Answer) → HasMet setting A.setting A.change
        (connect_selections names) (connecting names) false session.old session.new answers answers
        (A.seen actor.old).reached (A.seen actor.new).reached }
    ensures rest { session.new.state ≡ record session.old.state {
      place = session.new.state.place;
      actions = session.new.state.actions;
      last = session.new.state.last;
    } }
    ensures actions { session.new.state.actions ≡ session.old.state.actions + length (connect_changes names) }
    ensures used { Used 5 0 6 (A.seen actor.old) (A.seen actor.new) session.old.journal
        session.new.journal }
{
    actor.pass(session.number());
    match names {
        Some(names) => actor.connect(session, names.user, names.host),
        None => {}
    }
}

// The lines before a quit, where one is the last.
fn before_quit(lines: &[BlockLine]) -> Option<&[BlockLine]>
    ensures { MatchOption result ((before : List Line) → lines.now ≡ before ++ said.Quit ∷ [] → ⊥)
        (λ before. lines.now ≡ before.now ++ said.Quit ∷ []) }
{
    match lines.split_last() {
        Some((last, before)) => match last {
            BlockLine::Quit => Some(before),
            _ => None,
        },
        None => None,
    }
}

// Plays lines, and then ends the session.
fn play_and_quit<A: Actor>(
    alloc: Global,
    setting: &Setting,
    session: &mut Session,
    actor: &mut A,
    answers: &mut Vec<Rowset>,
    body: &[BlockLine],
) -> Result<(), NoMemory>
    requires may { MayEnd session.old.state.opened.depth (kinds_at session.old.state)
        (body.now ++ said.Quit ∷ []) }
    requires named { NamesLines A.change session.old.state.number session.old.state.actions
        (written_out (body.now ++ said.Quit ∷ [])) }
    requires lie { StagesLie (kinds_at session.old.state) }
    requires wide { length session.old.state.held ≡ 193 }
    requires ready { Ready (need_to_end body.now) session.old (A.seen actor.old) }
    ensures did { OnOk result (HasEnded setting.now A.setting A.change (body.now ++ said.Quit ∷ []) session.old
        session.new answers.old.items answers.new.items (A.seen actor.old).reached (A.seen actor.new).reached) }
    ensures kinds { OnOk result (kinds_at session.new.state ≡ []) }
    ensures wide { OnOk result (length session.new.state.held ≡ 193) }
    ensures within { OnOk result (Within (need_to_end body.now) session.old session.new (A.seen actor.old)
        (A.seen actor.new)) }
{
    match play_written(alloc, setting, session, actor, answers, body) {
        Ok(()) => {
            actor.pass(session.number());
            actor.quit(session);
            Ok(())
        }
        Err(fault) => Err(fault),
    }
}

// Plays the lines of a block, and ends the session where the last line says so.
fn play_to_end<A: Actor>(
    alloc: Global,
    setting: &Setting,
    session: &mut Session,
    actor: &mut A,
    answers: &mut Vec<Rowset>,
    lines: &[BlockLine],
) -> Result<(), NoMemory>
    requires may { MayEnd session.old.state.opened.depth (kinds_at session.old.state) lines.now }
    requires named { NamesLines A.change session.old.state.number session.old.state.actions (written_out lines.now) }
    requires lie { StagesLie (kinds_at session.old.state) }
    requires wide { length session.old.state.held ≡ 193 }
    requires ready { Ready (need_to_end lines.now) session.old (A.seen actor.old) }
    ensures did { OnOk result (HasEnded setting.now A.setting A.change lines.now session.old session.new
        answers.old.items answers.new.items (A.seen actor.old).reached (A.seen actor.new).reached) }
    ensures kinds { OnOk result (kinds_at session.new.state ≡ kinds_after (kinds_at session.old.state)
        (written_out lines.now)) }
    ensures lie { OnOk result (StagesLie (kinds_at session.new.state)) }
    ensures wide { OnOk result (length session.new.state.held ≡ 193) }
    ensures within { OnOk result (Within (need_to_end lines.now) session.old session.new (A.seen actor.old)
        (A.seen actor.new)) }
{
    match before_quit(lines) {
        Some(body) => play_and_quit(alloc, setting, session, actor, answers, body),
        None => play_written(alloc, setting, session, actor, answers, lines),
    }
}

/// Plays a block of a script in its session: it connects where the block gives names, plays the lines, each repeat so
/// many times as it says, ends where the last line says so, and settles at the block's end what it still holds. The
/// answers of its SELECTs come behind the others. Err is NoMemory alone.
pub fn play_block<A: Actor>(
    alloc: Global,
    setting: &Setting,
    session: Session,
    actor: &mut A,
    answers: &mut Vec<Rowset>,
    block: &Block,
) -> Result<Paused, NoMemory>
    requires named { LabelsName A.change session.state.number session.state.actions (changes_in block.now) }
    requires connects { IfSome block.now.connect (λ connect. MayConnect session.state A.setting connect.user
        connect.host) }
    requires may { MayEnd session.state.opened.depth (kinds_at session.state) block.now.lines }
    requires lie { StagesLie (kinds_at session.state) }
    requires free { session.state.held ≡ nothing_held }
    requires ready { Ready (need_of_block block.now) session (A.seen actor.old) }
    ensures did { IfOk result (λ paused. HasPlayed setting.now A.setting A.change block.now session paused
        answers.old.items answers.new.items (A.seen actor.old).reached (A.seen actor.new).reached) }
    ensures kinds { IfOk result (λ paused. kinds_at paused.state ≡ kinds_after (kinds_at session.state)
        (written_out block.now.lines)) }
    ensures lie { IfOk result (λ paused. StagesLie (kinds_at paused.state)) }
    ensures free { IfOk result (λ paused. paused.state.held ≡ nothing_held) }
    ensures within { IfOk result (λ paused. Within (need_of_block block.now) session paused (A.seen actor.old)
        (A.seen actor.new)) }
{
    let mut session = session;
    connect_by(&mut session, actor, block.connect);
    match play_to_end(
        alloc,
        setting,
        &mut session,
        actor,
        answers,
        block.lines.as_slice(),
    ) {
        Ok(()) => Ok(actor.pause(session)),
        Err(fault) => Err(fault),
    }
}
