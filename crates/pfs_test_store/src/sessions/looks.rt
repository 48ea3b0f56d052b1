//! What a session looks at for a query, over a plain store.

ghost use Rattle.std.specs.Prelude.{◌≡◌, ◌≤◌, ◌+◌, ℕ, None};
ghost use Rattle.pfs_session.specs.Settlements.{owed_by_state};

use crate::admin;
use crate::asserts::same;
use crate::levels::said;
use pfs_event::Entry;
use pfs_levels::Rows;
use pfs_reader::Reader;
use pfs_rows::Table;
use pfs_session::{Remark, Session};
use std::alloc::{AllocError, Global};
use std::test::Fail;

// How many readings a session's looks make until there is none, of at most 40.
fn looked<R: Rows>(session: &mut Session, rows: &mut R, reader: &mut Reader) -> u64
    requires hand { (r : ℕ) → (R.seen rows.old).hand r ≡ None }
    requires room { 40 ≤ session.old.journal.room }
    ensures hand { (r : ℕ) → (R.seen rows.new).hand r ≡ None }
    ensures left { (R.seen rows.old).left ≤ (R.seen rows.new).left }
    ensures room { session.old.journal.room ≤ session.new.journal.room + 40 }
    ensures owed { owed_by_state session.new.state ≡ owed_by_state session.old.state }
{
    for count in 0..40u64 {
        if session.look(rows, reader).is_none() {
            return count;
        }
    }
    40
}

// A query that finds the rows of all 32 users vacant, and answers none.
fn looked_at(alloc: Global) -> Result<Vec<Entry>, AllocError> {
    let mut entries = Vec::from_slice(alloc, &[Entry::Query])?;
    for row in 65..97 {
        entries.push(Entry::Vacant { row })?;
    }
    entries.push(Entry::Rows { number: 0 })?;
    Ok(entries)
}

// A store that nobody connected to.
#[test]
fn the_users_of_a_fresh_store_are_vacant(rt: HostRuntime) -> Result<(), Fail> {
    let alloc = rt.alloc();
    let setting = admin::setting(alloc)?;
    let mut rows = admin::store(alloc, &setting)?;
    let mut session = Session::open(alloc, 1, 10, 1)?;
    session.reserve(42)?;
    session.append(Remark::Query);
    let mut reader = Reader::open(&setting, Table::Users);
    let count = looked(&mut session, &mut rows, &mut reader);
    same(&rt, "looks", count, 32);
    session.append(Remark::Rows(0));
    let log = session.pause(&mut rows).take_log();
    let list = said(alloc, &log)?;
    let due = looked_at(alloc)?;
    same(&rt, "entries", list.as_slice(), due.as_slice());
    Ok(())
}
