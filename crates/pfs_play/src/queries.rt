//! SELECTs of a session: what is read of the store, and what is held by the administration.

ghost use Rattle.std.specs.Prelude.{◌≡◌, ◌<◌, ◌≤◌, ◌+◌, ◌^◌, Some, IfOk, OnOk, length};
ghost use Rattle.pfs_actor.specs.ActionAsks.{MayAct};
ghost use Rattle.pfs_admin.specs.declared.changes.Change.{Change};
ghost use Rattle.pfs_admin.specs.declared.changes.Change.TheVariants.{Setup};
ghost use Rattle.pfs_admin.specs.declared.changes.SetupStatement.TheVariants.{Show};
ghost use Rattle.pfs_board.specs.declared.view.Label.{Label};
ghost use Rattle.pfs_law_plain.specs.Spells.{label_of};
ghost use Rattle.pfs_levels.specs.Views.{Used};
ghost use Rattle.pfs_classes.specs.declared.setting.Setting.{Setting as AnySetting};
ghost use Rattle.pfs_law_session.specs.Deeds.{looks};
ghost use Rattle.pfs_reader.specs.Readings.{HoldsNone};
ghost use Rattle.pfs_readsets.specs.TablePlaces.{scope_of};
ghost use Rattle.pfs_readsets.specs.ReadSets.{IsReadSet};
ghost use Rattle.pfs_session.specs.Settlements.{owed_by_state};
ghost use Rattle.pfs_session.specs.SessionStates.{nothing_held};
ghost use Rattle.pfs_session.specs.Turns.{Played};
ghost use Rattle.pfs_setups.specs.HeldRows.{IsHeld};
ghost use Rattle.pfs_play.specs.Errands.{HasRun};
ghost use Rattle.pfs_play.specs.Errand as ask;

use crate::NoMemory;
use pfs_actor::Actor;
use pfs_classes::Setting;
use pfs_exec::{Select, select};
use pfs_levels::Rows;
use pfs_reader::{Reader, ReadingList};
use pfs_rows::Table;
use pfs_session::{Remark, Session};
use pfs_tables::listed;
use pfs_text::Rowset;
use std::alloc::Global;

// All readings of a table's read set, one after another.
fn look_at<R: Rows>(
    alloc: Global,
    setting: &Setting,
    session: &mut Session,
    rows: &mut R,
    table: Table,
) -> Result<ReadingList, NoMemory>
    requires away { HoldsNone (R.seen rows.old).hand }
    requires room { 14403 ≤ session.old.journal.room }
    ensures whole { IfOk result (λ readings. IsReadSet (scope_of setting.now) table readings) }
    ensures played { IfOk result (λ readings. Played (looks readings) session.old session.new (R.seen rows.old).reached
        (R.seen rows.new).reached) }
    ensures state { session.new.state ≡ session.old.state }
    ensures used { OnOk result (Used 0 0 14403 (R.seen rows.old) (R.seen rows.new) session.old.journal
        session.new.journal) }
{
    let mut reader = Reader::open(setting, table);
    let mut readings = Vec::new(alloc);
    while let Some(reading) = session.look(rows, &mut reader) {
        readings.push(reading)?;
    }
    Ok(ReadingList::new(readings))
}

/// Answers a SELECT by what is read of the store: its table's read set, each row and word once, whatever was recorded.
/// Err is NoMemory alone.
pub(crate) fn query<R: Rows>(
    alloc: Global,
    setting: &Setting,
    session: &mut Session,
    rows: &mut R,
    answers: &mut Vec<Rowset>,
    what: Select,
) -> Result<(), NoMemory>
    requires away { HoldsNone (R.seen rows.old).hand }
    requires room { 14405 ≤ session.old.journal.room }
    ensures run { OnOk result ((fixed : AnySetting) → (change : Label → Change) → HasRun setting.now fixed change
        (ask.Query what) session.old session.new answers.old.items answers.new.items (R.seen rows.old).reached
        (R.seen rows.new).reached) }
    ensures state { OnOk result (session.new.state ≡ session.old.state) }
    ensures used { OnOk result (Used 0 0 14405 (R.seen rows.old) (R.seen rows.new) session.old.journal
        session.new.journal) }
{
    session.append(Remark::Query);
    let readings = look_at(alloc, setting, session, rows, what.table)?;
    let shown = listed(alloc, setting, what.table, readings.as_slice())?;
    let answer = select(alloc, &what, &shown)?;
    session.append(Remark::Rows(answer.as_slice().len() as u64));
    answers.push(answer)?;
    Ok(())
}

/// Answers a SELECT by what the administration holds, an action. Whatever is held, it takes no more than this. Err is
/// NoMemory alone.
pub(crate) fn show_table<A: Actor>(
    alloc: Global,
    session: &mut Session,
    actor: &mut A,
    answers: &mut Vec<Rowset>,
    what: Select,
) -> Result<(), NoMemory>
    requires named { A.change (label_of session.old.state) ≡ Setup Show }
    requires held { IsHeld what.table }
    requires rare { session.old.state.actions + 1 < 2 ^ 64 }
    requires wide { length session.old.state.held ≡ 193 }
    requires acts { MayAct 194 260 (A.seen actor.old) session.old.journal }
    ensures run { OnOk result ((setting : AnySetting) → HasRun setting A.setting A.change (ask.Show what) session.old
        session.new answers.old.items answers.new.items (A.seen actor.old).reached (A.seen actor.new).reached) }
    ensures rest { OnOk result (session.new.state ≡ record session.old.state {
      held = nothing_held;
      actions = session.old.state.actions + 1;
      last = session.new.state.last;
    }) }
    ensures owed { OnOk result (length (owed_by_state session.new.state)
        ≤ length (owed_by_state session.old.state)) }
    ensures used { OnOk result (Used 194 0 260 (A.seen actor.old) (A.seen actor.new)
        session.old.journal session.new.journal) }
{
    let answer = actor.show_held(alloc, session, &what)?;
    answers.push(answer)?;
    Ok(())
}
