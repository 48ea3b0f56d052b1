//! Playing lines of a script one after another.

ghost use Rattle.std.specs.Prelude.{◌≡◌, ◌≤◌, ◌+◌, OnOk, false, length};
ghost use Rattle.pfs_session.specs.Settlements.{owed_by_state};
ghost use Rattle.pfs_play.specs.Errands.{CanPlay, HasRun, HavePlayed, LabelsName, MayRun, NamesLines, StagesLie, errand_on, is_quit, kinds_after};
ghost use Rattle.pfs_play.specs.Needs.{Advanced, Ready, need_of, need_on};
ghost use Rattle.pfs_law_plain.specs.LineSteps.{kinds_at};
ghost use Rattle.pfs_runs.specs.ScriptLines.{changes_on};

use crate::NoMemory;
use crate::events::play_event;
use crate::requests::play_request;
use pfs_actor::Actor;
use pfs_classes::Setting;
use pfs_exec::request_of;
use pfs_script::BlockLine;
use pfs_session::Session;
use pfs_text::Rowset;
use std::alloc::Global;

/// Plays a line that doesn't end its session. The answer of a SELECT comes behind the others. Err is NoMemory alone.
pub fn play_line<A: Actor>(
    alloc: Global,
    setting: &Setting,
    session: &mut Session,
    actor: &mut A,
    answers: &mut Vec<Rowset>,
    line: &BlockLine,
) -> Result<(), NoMemory>
    requires stays { is_quit line.now ≡ false }
    requires may { MayRun (errand_on line.now) session.old.state.opened }
    requires named { LabelsName A.change session.old.state.number session.old.state.actions (changes_on line.now) }
    requires wide { length session.old.state.held ≡ 193 }
    requires ready { Ready (need_of (errand_on line.now)) session.old (A.seen actor.old) }
    ensures run { OnOk result (HasRun setting.now A.setting A.change (errand_on line.now) session.old session.new
        answers.old.items answers.new.items (A.seen actor.old).reached (A.seen actor.new).reached) }
    ensures advanced { OnOk result (Advanced (need_of (errand_on line.now)) session.old session.new (A.seen actor.old)
        (A.seen actor.new)) }
    ensures owed { OnOk result (length (owed_by_state session.new.state)
        ≤ length (owed_by_state session.old.state) + 4) }
{
    match line {
        BlockLine::Sql(text) => match request_of(alloc, text.as_bytes()) {
            Ok(what) => play_request(alloc, setting, session, actor, answers, what),
            Err(fault) => Err(fault),
        },
        _ => {
            play_event(session, actor, line);
            Ok(())
        }
    }
}

/// Plays lines in their session, repeats written out, none of which ends it. The answers of their SELECTs come behind the
/// others. Err is NoMemory alone.
pub fn play_lines<A: Actor>(
    alloc: Global,
    setting: &Setting,
    session: &mut Session,
    actor: &mut A,
    answers: &mut Vec<Rowset>,
    lines: &[BlockLine],
) -> Result<(), NoMemory>
    requires can { CanPlay 62 session.old.state.opened.depth (kinds_at session.old.state) lines.now }
    requires lie { StagesLie (kinds_at session.old.state) }
    requires named { NamesLines A.change session.old.state.number session.old.state.actions lines.now }
    requires wide { length session.old.state.held ≡ 193 }
    requires ready { Ready (need_on lines.now) session.old (A.seen actor.old) }
    ensures played { OnOk result (HavePlayed setting.now A.setting A.change lines.now session.old session.new
        answers.old.items answers.new.items (A.seen actor.old).reached (A.seen actor.new).reached) }
    ensures kinds { OnOk result (kinds_at session.new.state ≡ kinds_after (kinds_at session.old.state) lines.now) }
    ensures lie { OnOk result (StagesLie (kinds_at session.new.state)) }
    ensures advanced { OnOk result (Advanced (need_on lines.now) session.old session.new (A.seen actor.old)
        (A.seen actor.new)) }
{
    for line in lines {
        actor.pass(session.number());
        match play_line(alloc, setting, session, actor, answers, line) {
            Ok(()) => {}
            Err(fault) => return Err(fault),
        }
    }
    Ok(())
}
