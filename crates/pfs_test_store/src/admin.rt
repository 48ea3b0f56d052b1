//! Sessions that connect and quit over a plain store.

ghost use Rattle.std.specs.Prelude.{◌≡◌, ◌≤◌, ◌^◌, ℕ, Some, None, IfOk, length};
ghost use Rattle.pfs_admin.specs.OpeningState.{opened};
ghost use Rattle.pfs_classes.specs.Settings.{ComesFrom};
ghost use Rattle.pfs_rows.specs.Limits.{AreInRange};

use crate::asserts::same;
use pfs_admin::*;
use pfs_classes::{Classes, DigestList, Setting, TableList};
use pfs_consumers::Flags;
use pfs_levels::{Log, PlainRows, Readable};
use pfs_matching::Objects;
use pfs_names::{NameId, Names};
use pfs_rows::Limits;
use std::alloc::Global;
use std::test::Fail;

// The built-in classes. Which they are stays in here: a proof that knows the whole list is long.
fn builtins(alloc: Global, names: &mut Names, limits: &Limits) -> Result<Classes, NoMemory>
    requires room { length names.old ≤ 65500 }
    requires in_range { AreInRange limits.now }
    ensures limits { IfOk result (λ classes. classes.limits ≡ limits.now) }
    ensures come { IfOk result (λ classes. ComesFrom names.new classes) }
{
    let classes = Classes::builtin(alloc, names, limits)?;
    Ok(classes)
}

// The built-in classes, the names `u` and `h`, and no table.
pub(crate) fn setting(alloc: Global) -> Result<Setting, Fail>
    ensures { IfOk result (λ setting. 2 ≤ length setting.names) }
{
    setting_with(alloc, Flags::OPENING.0)
}

// The same, and these consumers.
pub(crate) fn setting_with(alloc: Global, consumers: u16) -> Result<Setting, Fail>
    ensures { IfOk result (λ setting. 2 ≤ length setting.names) }
{
    let mut names = Names::new(alloc);
    names.intern("u")?;
    names.intern("h")?;
    if names.count() > 65_500 {
        return Err(Fail::from("too many names"));
    }
    let limits = Limits::opening();
    let classes = builtins(alloc, &mut names, &limits)?;
    if names.count() < 2 {
        return Err(Fail::from("too few names"));
    }
    let tables = TableList::new(Vec::new(alloc));
    let digests = DigestList::new(Vec::new(alloc));
    Ok(Setting::new(names, classes, tables, digests, limits, consumers))
}

// A store that opens with the setting's flags.
pub(crate) fn store(alloc: Global, setting: &Setting) -> Result<PlainRows, NoMemory>
    ensures words { IfOk result (λ rows. (⟦<PlainRows as Readable>⟧.seen rows).words ≡ Some (opened setting.now).words) }
    ensures left { IfOk result (λ rows. (⟦<PlainRows as Readable>⟧.seen rows).left ≡ 2 ^ 47) }
    ensures draws { IfOk result (λ rows. (⟦<PlainRows as Readable>⟧.seen rows).draws ≡ 2 ^ 47) }
    ensures hand { IfOk result (λ rows. (r : ℕ) → (⟦<PlainRows as Readable>⟧.seen rows).hand r ≡ None) }
{
    let objects = Objects::open(alloc)?;
    let flags = opening_flags(alloc, setting, &objects)?;
    let rows = PlainRows::new(alloc, flags.as_slice())?;
    Ok(rows)
}

#[test]
fn a_session_connects_and_quits(rt: HostRuntime) -> Result<(), Fail> {
    let alloc = rt.alloc();
    let setting = setting(alloc)?;
    let mut rows = store(alloc, &setting)?;
    let mut admin = Admin::open(alloc, &setting)?;
    let mut log = Log::with_room(alloc, 259)?;
    let placed = admin.connect(&mut rows, 7, NameId(0), NameId(1), &mut log);
    same(&rt, "connected", (placed.thread, log.count()), (Some(0), 6));
    admin.quit(&mut rows, 7, &mut log);
    // Its 26 cells, its own row, those of its account, user and host, 56 places of rings, and its word.
    same(&rt, "gone", log.count(), 6 + 26 + 1 + 3 + 56 + 1);
    same(&rt, "lost", admin.lost().threads, 0);
    Ok(())
}
