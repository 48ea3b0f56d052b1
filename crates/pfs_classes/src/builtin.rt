//! The built-in classes.

ghost use Rattle.std.specs.Prelude.{◌≡◌, ◌≤◌, length, IfOk, OnOk, OnErr, Contains, map};
ghost use Rattle.pfs_names.specs.InternedTexts.{AreNames, id_of, interned};
ghost use Rattle.pfs_rows.specs.Limits.{AreInRange};
ghost use Rattle.pfs_classes.specs.Settings.{ComesFrom};
ghost use Rattle.pfs_classes.specs.Builtins.{row_of, with_rows, with_builtins, HasRows, HasBuiltins, after_rows, builtin_of};

use crate::{Class, Classes, Kind, NoMemory};
use pfs_names::{NameId, Names};
use pfs_rows::Limits;
use std::alloc::{AllocError, Global};

/// A built-in class: its name, its kind, and whether it is ENABLED and TIMED at first, both or
/// neither.
#[derive(Clone, Copy, Debug, PartialEq, Eq)]
pub struct Builtin {
    pub name: &'static str,
    pub kind: Kind,
    pub on: bool,
}

/// The name of the class that stands beside those of the list.
pub const TRANSACTION_NAME: &str = "transaction";

/// The built-in classes beside `transaction`, in the order in which they are registered. Which there
/// are and their flags are our own; the names of their kinds are MySQL's.
pub const BUILTINS: [Builtin; 24] = [
    Builtin {
        name: "wait/synch/mutex/sql/LOCK_open",
        kind: Kind::Mutex,
        on: false,
    },
    Builtin {
        name: "wait/synch/mutex/sql/THD::LOCK_thd_data",
        kind: Kind::Mutex,
        on: false,
    },
    Builtin {
        name: "wait/synch/mutex/innodb/trx_mutex",
        kind: Kind::Mutex,
        on: false,
    },
    Builtin {
        name: "wait/synch/rwlock/sql/LOCK_grant",
        kind: Kind::Rwlock,
        on: false,
    },
    Builtin {
        name: "wait/synch/rwlock/innodb/dict_operation_lock",
        kind: Kind::Rwlock,
        on: false,
    },
    Builtin {
        name: "wait/synch/cond/sql/COND_thread_cache",
        kind: Kind::Cond,
        on: false,
    },
    Builtin {
        name: "wait/io/file/sql/binlog",
        kind: Kind::File,
        on: true,
    },
    Builtin {
        name: "wait/io/file/innodb/innodb_data_file",
        kind: Kind::File,
        on: true,
    },
    Builtin {
        name: "wait/io/file/innodb/innodb_log_file",
        kind: Kind::File,
        on: true,
    },
    Builtin {
        name: "wait/io/socket/sql/client_connection",
        kind: Kind::Socket,
        on: false,
    },
    Builtin {
        name: "wait/io/table/sql/handler",
        kind: Kind::TableIo,
        on: true,
    },
    Builtin {
        name: "wait/lock/table/sql/handler",
        kind: Kind::TableLock,
        on: true,
    },
    Builtin {
        name: "stage/sql/init",
        kind: Kind::Stage,
        on: true,
    },
    Builtin {
        name: "stage/sql/optimizing",
        kind: Kind::Stage,
        on: true,
    },
    Builtin {
        name: "stage/sql/statistics",
        kind: Kind::Stage,
        on: true,
    },
    Builtin {
        name: "stage/sql/executing",
        kind: Kind::Stage,
        on: true,
    },
    Builtin {
        name: "stage/sql/end",
        kind: Kind::Stage,
        on: true,
    },
    Builtin {
        name: "statement/sql/select",
        kind: Kind::Statement,
        on: true,
    },
    Builtin {
        name: "statement/sql/insert",
        kind: Kind::Statement,
        on: true,
    },
    Builtin {
        name: "statement/sql/update",
        kind: Kind::Statement,
        on: true,
    },
    Builtin {
        name: "statement/sql/delete",
        kind: Kind::Statement,
        on: true,
    },
    Builtin {
        name: "statement/sql/truncate",
        kind: Kind::Statement,
        on: true,
    },
    Builtin {
        name: "statement/sql/call_procedure",
        kind: Kind::Statement,
        on: true,
    },
    Builtin {
        name: "statement/sp/stmt",
        kind: Kind::Statement,
        on: true,
    },
];

impl Classes {
    /// Registers the built-in classes, whose names are interned, and `transaction`. A class whose
    /// kind stands at its limit is lost, as one that a script registers. Out of memory the names
    /// are as before.
    pub fn builtin(alloc: Global, names: &mut Names, limits: &Limits) -> Result<Classes, NoMemory>
        requires room { length names.old ≤ 65500 }
        requires in_range { AreInRange limits.now }
        ensures classes { IfOk result (λ classes. classes ≡ builtin_of names.new limits.now) }
        ensures names { OnOk result (names.new ≡ with_builtins names.old) }
        ensures come { IfOk result (λ classes. ComesFrom names.new classes) }
        ensures err { OnErr result (names.new ≡ names.old) }
    {
        let mut copy = copied(alloc, names)?;
        intern_builtins(&mut copy)?;
        let classes = registered(alloc, &copy, limits)?;
        *names = copy;
        Ok(classes)
    }
}

// The same names, each with its id.
fn copied(alloc: Global, names: &Names) -> Result<Names, NoMemory>
    ensures { IfOk result (λ copy. copy ≡ names.now) }
{
    let mut copy = Names::new(alloc);
    for id in 0..names.count() {
        intern(&mut copy, names.get(NameId(id)))?;
    }
    Ok(copy)
}

// Interns a text of names that are few and short, so that only memory can be wanting.
fn intern(names: &mut Names, text: &str) -> Result<NameId, NoMemory>
    ensures ok { OnOk result (names.new ≡ interned names.old text.now) }
    ensures names { AreNames names.new }
    ensures err { OnErr result (names.new ≡ names.old) }
{
    match names.intern(text) {
        Ok(id) => Ok(id),
        Err(_) => Err(AllocError),
    }
}

fn intern_builtins(names: &mut Names) -> Result<(), NoMemory>
    ensures ok { OnOk result (names.new ≡ with_builtins names.old) }
    ensures names { OnOk result (AreNames names.new) }
{
    intern_rows(names, &BUILTINS)?;
    intern(names, TRANSACTION_NAME)?;
    Ok(())
}

fn intern_rows(names: &mut Names, rows: &[Builtin]) -> Result<(), NoMemory>
    ensures { OnOk result (names.new ≡ with_rows names.old (map row_of rows.now)) }
{
    for row in rows {
        intern(names, row.name)?;
    }
    Ok(())
}

// The built-in classes under names that have theirs.
fn registered(alloc: Global, names: &Names, limits: &Limits) -> Result<Classes, NoMemory>
    requires in_range { AreInRange limits.now }
    requires names { AreNames names.now }
    requires known { HasBuiltins names.now }
    ensures { IfOk result (λ classes. classes ≡ builtin_of names.now limits.now) }
{
    let transaction = Class {
        name: id_of(names, TRANSACTION_NAME),
        kind: Kind::Transaction,
        enabled: true,
        timed: true,
    };
    let mut classes = Classes::with_transaction(alloc, *limits, transaction)?;
    add_rows(&mut classes, names, &BUILTINS)?;
    Ok(classes)
}

fn add_rows(classes: &mut Classes, names: &Names, rows: &[Builtin]) -> Result<(), NoMemory>
    requires names { AreNames names.now }
    requires known { HasRows names.now (map row_of rows.now) }
    ensures { OnOk result (classes.new ≡ after_rows classes.old names.now (map row_of rows.now)) }
{
    for row in rows {
        let class = Class {
            name: id_of(names, row.name),
            kind: row.kind,
            enabled: row.on,
            timed: row.on,
        };
        classes.add(class)?;
    }
    Ok(())
}

// The id of a text that was interned.
fn id_of(names: &Names, text: &str) -> NameId
    requires names { AreNames names.now }
    requires known { Contains names.now text.now }
    ensures { result ≡ id_of names.now text.now }
{
    match names.find(text) {
        Some(id) => id,
        None => unreachable!(),
    }
}
