//! What changes of the setup tables answer, and the words behind them, while one session is connected.
use crate::asserts::same;
use crate::settings::setting;
use pfs_classes::{TableList, TableName};
use pfs_containers::Containers;
use pfs_exec::{Delete, Insert, NewRow, TestList, Update};
use pfs_matching::{Actors, FlagChange, ObjectKind, ObjectRow, Objects};
use pfs_names::NameId;
use pfs_rows::{Limits, Table};
use pfs_setups::{RowNames, delete, flags_behind, flags_by_answer, flags_by_rows, insert, update};
use pfs_text::{Test, TestKind, Text};
use std::alloc::Global;
use std::test::Fail;

// The names of a setting with the table d.t.
fn row_names(alloc: Global) -> Result<RowNames, Fail> {
    let mut tables = TableList::new(Vec::new(alloc));
    let schema = Text::from_slice(alloc, b"d")?;
    let name = Text::from_slice(alloc, b"t")?;
    tables.push(TableName { schema, name })?;
    let setting = setting(alloc, &["u", "h"], tables)?;
    Ok(RowNames::open(alloc, &setting)?)
}

// The rows of which a column is LIKE a pattern.
fn like(alloc: Global, column: u64, pattern: &[u8]) -> Result<TestList, Fail> {
    let pattern = Text::from_slice(alloc, pattern)?;
    Ok(TestList::new(vec![in alloc;
        Test {
            column,
            kind: TestKind::Like(pattern),
        },
    ]?))
}

// How many rows an update meets, all flags being on, and the flags of a word behind it, while session 7 of u and h is
// connected.
fn updated(alloc: Global, wanted: &Update, word: u64) -> Result<(u64, u16), Fail> {
    let names = row_names(alloc)?;
    let mut containers = Containers::open(alloc, &Limits::opening())?;
    let mut actors = Actors::open(alloc)?;
    let mut objects = Objects::open(alloc)?;
    containers.connect(7, NameId(0), NameId(1));
    let met = update(
        &names,
        &containers,
        &mut actors,
        &mut objects,
        &[3; 160],
        wanted,
    );
    Ok((
        met,
        flags_behind(&names, &containers, &objects, wanted, word, 3),
    ))
}

// The second flag of the rows of a table goes where a column is LIKE a pattern.
fn off(alloc: Global, table: Table, column: u64, pattern: &[u8]) -> Result<Update, Fail> {
    Ok(Update {
        table,
        change: FlagChange {
            first: None,
            second: Some(false),
        },
        tests: like(alloc, column, pattern)?,
    })
}

#[test]
fn a_thread_of_a_user(rt: HostRuntime) -> Result<(), Fail> {
    let alloc = rt.alloc();
    let wanted = off(alloc, Table::Threads, 1, b"u")?;
    assert_eq!(rt; updated(alloc, &wanted, 1)?, (1, 1));
    assert_eq!(rt; updated(alloc, &wanted, 2)?, (1, 3));
    Ok(())
}

#[test]
fn the_classes_of_files(rt: HostRuntime) -> Result<(), Fail> {
    let alloc = rt.alloc();
    let wanted = off(alloc, Table::SetupInstruments, 0, b"wait/io/file/%")?;
    assert_eq!(rt; updated(alloc, &wanted, 39)?, (3, 1));
    assert_eq!(rt; updated(alloc, &wanted, 42)?, (3, 3));
    Ok(())
}

#[test]
fn a_table_is_decided_again(rt: HostRuntime) -> Result<(), Fail> {
    let alloc = rt.alloc();
    let names = row_names(alloc)?;
    let mut actors = Actors::open(alloc)?;
    let mut objects = Objects::open(alloc)?;
    let row = NewRow::Object(ObjectRow {
        kind: ObjectKind::Table,
        schema: Text::from_slice(alloc, b"d")?,
        name: Text::from_slice(alloc, b"t")?,
        enabled: false,
        timed: false,
    });
    let answer = insert(&mut actors, &mut objects, Insert::new(row));
    same(&rt, "answer", answer, Ok(1));
    let table = Table::SetupObjects;
    let changed = flags_by_answer(&names, &objects, table, &answer, 96, 3);
    let refused = flags_by_answer(&names, &objects, table, &Err(1062), 96, 3);
    same(&rt, "flags", (changed, refused), (0, 3));
    let all = Delete {
        table,
        tests: like(alloc, 1, b"d")?,
    };
    same(&rt, "deleted", delete(&mut actors, &mut objects, &all), 1);
    let flags = flags_by_rows(&names, &objects, table, 96, 0);
    same(&rt, "flags again", flags, 3);
    Ok(())
}
