//! What a text of SQL asks for, done in its session.

ghost use Rattle.std.specs.Prelude.{◌≡◌, ◌<◌, ◌≤◌, ◌+◌, ◌*◌, ◌^◌, OnOk, length};
ghost use Rattle.pfs_actor.specs.ActionAsks.{MayAct};
ghost use Rattle.pfs_actor.specs.ActorDeeds.{HasActed};
ghost use Rattle.pfs_admin.specs.declared.changes.Change.TheVariants.{Setup, Truncate};
ghost use Rattle.pfs_law_plain.specs.Spells.{label_of};
ghost use Rattle.pfs_levels.specs.Views.{Used};
ghost use Rattle.pfs_runs.specs.ScriptLines.{sql_changes};
ghost use Rattle.pfs_law_session.specs.Deeds.{Changing, IsReplied, Truncating};
ghost use Rattle.pfs_session.specs.Settlements.{owed_by_state};
ghost use Rattle.pfs_session.specs.SessionStates.{nothing_held};
ghost use Rattle.pfs_play.specs.Needs.{Advanced, Ready, need_of};
ghost use Rattle.pfs_play.specs.Errands.{HasRun, LabelsName, MayRun, sql_errand};

use crate::NoMemory;
use crate::queries::{query, show_table};
use pfs_actor::Actor;
use pfs_admin::{SetupStatement, Truncation};
use pfs_classes::Setting;
use pfs_exec::Request;
use pfs_session::{Remark, Session};
use pfs_text::Rowset;
use std::alloc::Global;

/// Does what a text asks for, and puts the answer of a SELECT behind the others. A text that is refused writes its error.
/// Err is NoMemory alone.
pub(crate) fn play_request<A: Actor>(
    alloc: Global,
    setting: &Setting,
    session: &mut Session,
    actor: &mut A,
    answers: &mut Vec<Rowset>,
    what: Request,
) -> Result<(), NoMemory>
    requires may { MayRun (sql_errand what) session.old.state.opened }
    requires named { LabelsName A.change session.old.state.number session.old.state.actions (sql_changes what) }
    requires wide { length session.old.state.held ≡ 193 }
    requires ready { Ready (need_of (sql_errand what)) session.old (A.seen actor.old) }
    ensures run { OnOk result (HasRun setting.now A.setting A.change (sql_errand what) session.old session.new
        answers.old.items answers.new.items (A.seen actor.old).reached (A.seen actor.new).reached) }
    ensures advanced { OnOk result (Advanced (need_of (sql_errand what)) session.old session.new (A.seen actor.old)
        (A.seen actor.new)) }
    ensures owed { OnOk result (length (owed_by_state session.new.state)
        ≤ length (owed_by_state session.old.state) + 4) }
{
    match what {
        Request::Refused(error) => session.append(Remark::Refused(error)),
        Request::Truncate(truncation) => truncate_table(session, actor, truncation),
        Request::Update(update) => { change_table(session, actor, SetupStatement::Update(update)) }
        Request::Insert(insert) => { change_table(session, actor, SetupStatement::Insert(insert)) }
        Request::Delete(delete) => { change_table(session, actor, SetupStatement::Delete(delete)) }
        Request::Query(select) => return query(alloc, setting, session, actor, answers, select),
        Request::Show(select) => return show_table(alloc, session, actor, answers, select),
    }
    Ok(())
}

// Truncates a table. Whatever is held and whatever stands in the tables, it takes no more than this.
fn truncate_table<A: Actor>(session: &mut Session, actor: &mut A, what: Truncation)
    requires named { A.change (label_of session.old.state) ≡ Truncate what }
    requires rare { session.old.state.actions + 1 < 2 ^ 64 }
    requires wide { length session.old.state.held ≡ 193 }
    requires acts { MayAct 20194 20196 (A.seen actor.old) session.old.journal }
    ensures run { HasActed A.setting A.change (λ admin. Truncating admin what) session.old session.new
        (A.seen actor.old).reached (A.seen actor.new).reached }
    ensures rest { session.new.state ≡ record session.old.state {
      held = nothing_held;
      actions = session.old.state.actions + 1;
      last = session.new.state.last;
    } }
    ensures owed { length (owed_by_state session.new.state) ≤ length (owed_by_state session.old.state) }
    ensures used { Used 20194 0 20196 (A.seen actor.old) (A.seen actor.new) session.old.journal
        session.new.journal }
{
    actor.truncate(session, what);
}

// Does a statement on a setup table. Whatever is held, it takes no more than this.
fn change_table<A: Actor>(session: &mut Session, actor: &mut A, what: SetupStatement)
    requires named { A.change (label_of session.old.state) ≡ Setup what }
    requires replied { IsReplied what }
    requires rare { session.old.state.actions + 1 < 2 ^ 64 }
    requires wide { length session.old.state.held ≡ 193 }
    requires acts { MayAct 194 260 (A.seen actor.old) session.old.journal }
    ensures run { HasActed A.setting A.change (λ admin. Changing admin what) session.old session.new
        (A.seen actor.old).reached (A.seen actor.new).reached }
    ensures rest { session.new.state ≡ record session.old.state {
      held = nothing_held;
      actions = session.old.state.actions + 1;
      last = session.new.state.last;
    } }
    ensures owed { length (owed_by_state session.new.state) ≤ length (owed_by_state session.old.state) }
    ensures used { Used 194 0 260 (A.seen actor.old) (A.seen actor.new) session.old.journal
        session.new.journal }
{
    actor.act(session, what);
}
