//! Lines that start and end events, and let time pass.

ghost use Rattle.std.specs.Prelude.{◌≡◌, ◌<◌, ◌≤◌, ◌+◌, ◌^◌, ℕ, List, None, false, length};
ghost use Rattle.pfs_levels.specs.Views.{Affords, Used};
ghost use Rattle.pfs_actor.specs.ActorDeeds.{HasActed};
ghost use Rattle.pfs_admin.specs.declared.changes.Change.{Change};
ghost use Rattle.pfs_board.specs.declared.view.Label.{Label};
ghost use Rattle.pfs_classes.specs.declared.setting.Setting.{Setting};
ghost use Rattle.pfs_law_session.specs.Deeds.{Ending};
ghost use Rattle.pfs_runs.specs.SelectAnswers.{Answer};
ghost use Rattle.pfs_runs.specs.ScriptLines.{class_in, cell_in, wait_on, statement_on, transaction_on, stage_on};
ghost use Rattle.pfs_law_plain.specs.LineSteps.{numbers_in};
ghost use Rattle.pfs_session.specs.Settlements.{owed_by_state};
ghost use Rattle.pfs_play.specs.Errand as ask;
ghost use Rattle.pfs_play.specs.Errands.{HasRun, MayRun, cost_of, errand_on, is_quit, is_sql};

use pfs_classes::{ClassId, ClassRef, TRANSACTION};
use pfs_event::EventKind;
use pfs_levels::Rows;
use pfs_model::Subject;
use pfs_rows::READ_ONLY_CELL;
use pfs_script::{Access, BlockLine, StatementNumbers};
use pfs_session::{Numbers, Session};

fn class_in(class: ClassRef) -> Option<u64>
    ensures { result ≡ class_in class }
{
    match class {
        ClassRef::Class(id) => Some(id.0),
        ClassRef::Lost(_) => None,
    }
}

fn cell_in(access: Option<Access>, class: Option<u64>) -> u64
    ensures { result ≡ cell_in access class }
{
    match access {
        Some(Access::ReadOnly) => READ_ONLY_CELL,
        Some(Access::ReadWrite) | None => class.unwrap_or(0),
    }
}

fn wait_on(class: ClassRef, table: Option<u64>) -> Subject
    ensures { result ≡ wait_on class table }
{
    let class = class_in(class);
    Subject {
        kind: EventKind::Wait,
        class,
        cell: cell_in(None, class),
        table,
        digest: None,
    }
}

fn statement_on(class: ClassRef, digest: Option<u64>) -> Subject
    ensures { result ≡ statement_on class digest }
{
    let class = class_in(class);
    Subject {
        kind: EventKind::Statement,
        class,
        cell: cell_in(None, class),
        table: None,
        digest,
    }
}

fn transaction_on(access: Access) -> Subject
    ensures { result ≡ transaction_on access }
{
    let class = class_in(ClassRef::Class(ClassId(TRANSACTION)));
    Subject {
        kind: EventKind::Transaction,
        class,
        cell: cell_in(Some(access), class),
        table: None,
        digest: None,
    }
}

fn stage_on(class: ClassRef) -> Subject
    ensures { result ≡ stage_on class }
{
    let class = class_in(class);
    Subject {
        kind: EventKind::Stage,
        class,
        cell: cell_in(None, class),
        table: None,
        digest: None,
    }
}

fn numbers_in(numbers: &StatementNumbers) -> Numbers
    ensures { result ≡ numbers_in numbers.now }
{
    Numbers {
        lock: numbers.lock,
        errors: numbers.errors,
        warnings: numbers.warnings,
        affected: numbers.affected,
        sent: numbers.sent,
        examined: numbers.examined,
    }
}

/// Plays a line that is no text of SQL, and not the end of its session: an event starts or ends, a stage changes, or
/// time passes. The beginning and the end of a repeat let none pass.
pub(crate) fn play_event<R: Rows>(session: &mut Session, rows: &mut R, line: &BlockLine)
    requires stays { is_quit line.now ≡ false }
    requires plain { is_sql line.now ≡ false }
    requires may { MayRun (errand_on line.now) session.old.state.opened }
    requires early { session.old.state.drawn + 1 < 2 ^ 64 }
    requires wide { length session.old.state.held ≡ 193 }
    requires alone { (r : ℕ) → 0 < r → (R.seen rows.old).hand r ≡ None }
    requires affords { Affords 11 2 (cost_of (errand_on line.now)) (R.seen rows.old) session.old.journal }
    ensures run { (setting : Setting) (fixed : Setting) (change : Label → Change) (answers : List Answer) → HasRun
        setting fixed change (errand_on line.now) session.old session.new answers answers (R.seen rows.old).reached
        (R.seen rows.new).reached }
    ensures drawn { session.new.state.drawn ≤ session.old.state.drawn + 1 }
    ensures rest { session.new.state ≡ record session.old.state {
      clock = session.new.state.clock;
      drawn = session.new.state.drawn;
      opened = session.new.state.opened;
      held = session.new.state.held;
      nexts = session.new.state.nexts;
    } }
    ensures depth { session.new.state.opened.depth ≡ session.old.state.opened.depth }
    ensures wide { length session.new.state.held ≡ 193 }
    ensures owed { length (owed_by_state session.new.state) ≤ length (owed_by_state session.old.state) + 4 }
    ensures used { Used 11 2 (cost_of (errand_on line.now)) (R.seen rows.old) (R.seen rows.new) session.old.journal
        session.new.journal }
{
    match line {
        BlockLine::Wait(class) => {
            session.start(rows, &wait_on(*class, None));
        }
        BlockLine::TableWait { class, table } => {
            session.start(rows, &wait_on(*class, Some(*table)));
        }
        BlockLine::Statement { class, digest } => {
            session.start(rows, &statement_on(*class, *digest));
        }
        BlockLine::Transaction(access) => {
            session.start(rows, &transaction_on(*access));
        }
        BlockLine::Stage(class) => {
            session.stage(rows, &Some(stage_on(*class)));
        }
        BlockLine::StageEnd => {
            session.stage(rows, &None);
        }
        BlockLine::Spend(time) => session.spend(*time),
        BlockLine::End => end(session, rows, &Numbers::NONE),
        BlockLine::EndStatement(numbers) => end(session, rows, &numbers_in(numbers)),
        BlockLine::Repeat(_) => session.spend(0),
        BlockLine::Done => session.spend(0),
        BlockLine::Quit | BlockLine::Sql(_) => unreachable!(),
    }
}

// Ends the innermost event, and its statement too where that is a stage.
fn end<R: Rows>(session: &mut Session, rows: &mut R, numbers: &Numbers)
    requires may { MayRun (ask.End numbers.now) session.old.state.opened }
    requires early { session.old.state.drawn + 1 < 2 ^ 64 }
    requires wide { length session.old.state.held ≡ 193 }
    requires alone { (r : ℕ) → 0 < r → (R.seen rows.old).hand r ≡ None }
    requires affords { Affords 11 2 14 (R.seen rows.old) session.old.journal }
    ensures run { (fixed : Setting) (change : Label → Change) → HasActed fixed change (λ admin. Ending numbers.now)
        session.old session.new (R.seen rows.old).reached (R.seen rows.new).reached }
    ensures drawn { session.new.state.drawn ≤ session.old.state.drawn + 1 }
    ensures rest { session.new.state ≡ record session.old.state {
      clock = session.new.state.clock;
      drawn = session.new.state.drawn;
      opened = session.new.state.opened;
      held = session.new.state.held;
      nexts = session.new.state.nexts;
    } }
    ensures depth { session.new.state.opened.depth ≡ session.old.state.opened.depth }
    ensures wide { length session.new.state.held ≡ 193 }
    ensures owed { length (owed_by_state session.new.state) ≤ length (owed_by_state session.old.state) + 4 }
    ensures used { Used 11 2 14 (R.seen rows.old) (R.seen rows.new) session.old.journal session.new.journal }
{
    session.stage(rows, &None);
    session.end(rows, numbers);
}
