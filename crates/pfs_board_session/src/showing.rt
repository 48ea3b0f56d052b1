//! A SELECT on rows that the administration holds, over a board.

ghost use Rattle.std.specs.Prelude.{◌≡◌, ◌<◌, ◌+◌, ◌^◌, ℕ, List, IfOk, None, length};
ghost use Rattle.pfs_admin.specs.SetupStatements.{has_changed};
ghost use Rattle.pfs_admin.specs.declared.changes.Change.TheVariants.{Setup};
ghost use Rattle.pfs_admin.specs.declared.changes.SetupStatement.TheVariants.{Show};
ghost use Rattle.pfs_exec.specs.Selections.{IsAnswer};
ghost use Rattle.pfs_law_plain.specs.Spells.{label_of};
ghost use Rattle.pfs_levels.specs.Calls.{Call, Opening};
ghost use Rattle.pfs_levels.specs.Views.{Used, lent_as};
ghost use Rattle.pfs_session.specs.CallCosts.{MayWork};
ghost use Rattle.pfs_session.specs.SessionStates.{nothing_held};
ghost use Rattle.pfs_session.specs.Settlements.{owed_by_state, settle_cost};
ghost use Rattle.pfs_session.specs.Turns.{Played};
ghost use Rattle.pfs_setups.specs.HeldRows.{IsHeld, held_rows};
ghost use Rattle.pfs_board_session.specs.SessionActions.{HasShown, IsIdle, shown_steps};

use crate::NoMemory;
use crate::desks::{begin, finish};
use pfs_admin::{Admin, SetupStatement};
use pfs_board_admin::{Desk, Shared};
use pfs_board_store::BoardRows;
use pfs_exec::Select;
use pfs_levels::{Hold, Readable, Rows};
use pfs_session::{Remark, Session};
use pfs_setups::show;
use pfs_text::Rowset;
use std::alloc::Global;
use std::sync::Wait;

/// Answers a SELECT on `setup_actors` or `setup_objects` by the rows that the administration holds, an action that
/// changes nothing: the store again, and the answer. It waits until no other action is under way. What the session
/// holds back is settled first; the log gets how many rows answer. Err is NoMemory alone: the action has ended then
/// too, and nothing is told of rows.
pub fn show_held<'a, R: Wait, N: Shared>(
    rt: &R,
    alloc: Global,
    rows: BoardRows<'a, Desk<N>>,
    session: &mut Session,
    query: &Select,
) -> (BoardRows<'a, Desk<N>>, Result<Rowset, NoMemory>)
    requires named { N.change (label_of session.old.state) ≡ Setup Show }
    requires held { IsHeld query.now.table }
    requires early { session.old.state.actions + 1 < 2 ^ 64 }
    requires idle { IsIdle (length (owed_by_state session.old.state) + 1) (settle_cost
        (owed_by_state session.old.state) + 3) (⟦<BoardRows<'a, Desk<N>> as Readable>⟧.seen rows) session.old }
    requires begun { (start : Opening) × (calls : List Call)
        × ((⟦<BoardRows<'a, Desk<N>> as Readable>⟧.seen rows).reached start calls) × (start.switches.table ≡ N.switches) }
    ensures shown { HasShown N.setting N.change query.now result.1 session.old session.new
        (⟦<BoardRows<'a, Desk<N>> as Readable>⟧.seen rows.entry).reached
        (⟦<BoardRows<'a, Desk<N>> as Readable>⟧.seen result.0).reached }
    ensures rest { session.new.state ≡ record session.old.state {
      held = nothing_held;
      actions = session.old.state.actions + 1;
      last = session.new.state.last;
    } }
    ensures hand { (r : ℕ) → (⟦<BoardRows<'a, Desk<N>> as Readable>⟧.seen result.0).hand r ≡ None }
    ensures used { Used (length (owed_by_state session.old.state) + 1) 0 (settle_cost (owed_by_state session.old.state)
        + 3) (⟦<BoardRows<'a, Desk<N>> as Readable>⟧.seen rows.entry) (⟦<BoardRows<'a, Desk<N>> as Readable>⟧.seen result.0)
        session.old.journal session.new.journal }
{
    let (mut admin, mut hold) = begin(rt, rows, session.label());
    let answer = answer_held(alloc, session, &mut hold, &mut admin, query);
    (finish(hold, admin), answer)
}

// What a session does inside such an action.
fn answer_held<H: Hold>(
    alloc: Global,
    session: &mut Session,
    rows: &mut H,
    admin: &mut Admin,
    query: &Select,
) -> Result<Rowset, NoMemory>
    requires held { IsHeld query.now.table }
    requires early { session.old.state.actions + 1 < 2 ^ 64 }
    requires may { MayWork (length (owed_by_state session.old.state)) (settle_cost (owed_by_state session.old.state)
        + 3) admin.old (H.seen rows.old) session.old.journal }
    ensures played { Played (shown_steps result admin.old) session.old session.new (H.seen rows.old).reached
        (H.seen rows.new).reached }
    ensures answered { IfOk result (IsAnswer query.now (held_rows query.now.table admin.old.actors
        admin.old.objects)) }
    ensures admin { admin.new ≡ has_changed admin.old Show }
    ensures rest { session.new.state ≡ record session.old.state {
      held = nothing_held;
      actions = session.old.state.actions + 1;
      last = session.new.state.last;
    } }
    ensures used { Used (length (owed_by_state session.old.state)) 0 (settle_cost (owed_by_state session.old.state)
        + 3) (lent_as admin.new.words (H.seen rows.old)) (H.seen rows.new) session.old.journal session.new.journal }
{
    session.act(rows, admin, SetupStatement::Show);
    match show(alloc, query, admin.actors(), admin.objects()) {
        Ok(answer) => {
            session.append(Remark::Rows(answer.as_slice().len() as u64));
            Ok(answer)
        }
        Err(fault) => Err(fault),
    }
}
