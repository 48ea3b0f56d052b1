//! What a session holds back, settled before its own actions.

ghost use Rattle.std.specs.Prelude.{◌≡◌, ◌≤◌, ◌<◌, ◌+◌, ◌^◌, ℕ, [], Some, None, IfOk, length};
ghost use Rattle.pfs_session.specs.Settlements.{owed_by_state};

use super::{ADDED, HELD, Refusing, WAIT, fresh, record};
use crate::admin;
use crate::asserts::same;
use crate::levels::said;
use pfs_admin::Admin;
use pfs_event::Entry;
use pfs_levels::{Readable, Rows};
use pfs_names::NameId;
use pfs_rows::Seen;
use pfs_session::Session;
use pfs_stat::Stat;
use std::alloc::Global;
use std::test::Fail;

// A session that has connected and recorded a wait, whose addition is refused where the store refuses one.
fn waiting(alloc: Global, rows: &mut Refusing, admin: &mut Admin) -> Result<Session, Fail>
    requires words { (⟦<Refusing as Readable>⟧.seen rows.old).words ≡ Some admin.old.words }
    requires left { (⟦<Refusing as Readable>⟧.seen rows.old).left ≡ 2 ^ 47 }
    requires draws { (⟦<Refusing as Readable>⟧.seen rows.old).draws ≡ 2 ^ 47 }
    requires hand { (r : ℕ) → (⟦<Refusing as Readable>⟧.seen rows.old).hand r ≡ None }
    requires fresh { admin.old.actions ≡ 0 }
    requires names { 2 ≤ length admin.old.names }
    ensures words { (⟦<Refusing as Readable>⟧.seen rows.new).words ≡ Some admin.new.words }
    ensures left { 2 ^ 47 ≤ (⟦<Refusing as Readable>⟧.seen rows.new).left + 10 }
    ensures hand { (r : ℕ) → (⟦<Refusing as Readable>⟧.seen rows.new).hand r ≡ None }
    ensures few { admin.new.actions ≤ 1 }
    ensures closed { IfOk result (λ s. s.state.opened ≡ record { depth = 1; events = [] }) }
    ensures early { IfOk result (λ s. s.state.actions ≡ 1) }
    ensures owed { IfOk result (λ s. length (owed_by_state s.state) ≤ 2) }
    ensures room { IfOk result (λ s. 286 ≤ s.journal.room) }
{
    let mut session = Session::open(alloc, 1, 10, 1)?;
    session.reserve(300)?;
    session.connect(rows, admin, NameId(0), NameId(1));
    record(&mut session, rows, &WAIT, 5)?;
    Ok(session)
}

// What stands in a row: how many events, and their time.
fn counted<R: Rows>(rows: &mut R, row: u64) -> Result<(u64, u64), Fail>
    requires row { 0 < row }
    requires few_rows { row < 14242 }
    requires away { (R.seen rows.old).hand row ≡ None }
    ensures hand { (r : ℕ) → (R.seen rows.new).hand r ≡ (R.seen rows.old).hand r }
{
    match rows.read(row) {
        Seen::Whole { content, .. } => {
            let stat = Stat::of_words(&content);
            Ok((stat.count, stat.sum))
        }
        _ => Err(Fail::from("the row is not whole")),
    }
}

#[test]
fn what_is_held_is_settled_before_a_quit(rt: HostRuntime) -> Result<(), Fail> {
    let alloc = rt.alloc();
    let setting = admin::setting(alloc)?;
    let (mut rows, mut admin) = fresh(alloc, &setting, 1, 0)?;
    let mut session = waiting(alloc, &mut rows, &mut admin)?;
    session.quit(&mut rows, &mut admin);
    let log = session.pause(&mut rows).take_log();
    let list = said(alloc, &log)?;
    let entries = list.as_slice();
    // Behind the action: 26 cells, of which one gives what it counted, and 61 of the session's places and its word.
    assert_eq!(rt; entries.len(), 12 + 26 + 1 + 61);
    let due = [HELD, Entry::Settle, ADDED, Entry::Act { action: 2 }];
    same(&rt, "entries", &entries[8..12], due.as_slice());
    // The account's cell has it once.
    same(&rt, "cell", counted(&mut rows, 135)?, (0, 0));
    same(&rt, "account", counted(&mut rows, 2183)?, (1, 5));
    Ok(())
}
