//! What no clause says: that the calls succeed with ample memory, and the list under its limits.

use crate::asserts::same;
use crate::settings::builtins;
use pfs_classes::{
    ClassFault, ClassId, ClassRef, Classes, DigestList, DigestText, Kind, Registered, TableList,
    TableName,
};
use pfs_names::Names;
use pfs_rows::Limits;
use pfs_text::Text;
use std::process::Abort;
use std::test::Fail;

const MUTEXES: [&str; 9] = [
    "wait/synch/mutex/test/a",
    "wait/synch/mutex/test/b",
    "wait/synch/mutex/test/c",
    "wait/synch/mutex/test/d",
    "wait/synch/mutex/test/e",
    "wait/synch/mutex/test/f",
    "wait/synch/mutex/test/g",
    "wait/synch/mutex/test/h",
    "wait/synch/mutex/test/i",
];

fn register(
    rt: &impl Abort,
    classes: &mut Classes,
    names: &mut Names,
    text: &str,
) -> Result<Result<Registered, ClassFault>, Fail> {
    let name = names.intern(text)?;
    let kind = Kind::of_name(text.as_bytes()).ok_or("no kind")?;
    let fixed = kind.is_fixed();
    assert!(rt; !fixed);
    Ok(classes.register(names, name, true, false))
}

// The nine that the list leaves room for.
fn register_mutexes(rt: &impl Abort, classes: &mut Classes, names: &mut Names) -> Result<(), Fail> {
    for text in &MUTEXES {
        let told = register(rt, classes, names, text)?;
        assert!(rt; matches!(told, Ok(Registered::Class(_))));
    }
    Ok(())
}

// The list under the default limits, and a thirteenth class of mutexes, which is lost and
// remembered.
#[test]
fn registers(rt: HostRuntime) -> Result<(), Fail> {
    let alloc = rt.alloc();
    let mut names = Names::new(alloc);
    let mut classes = builtins(alloc, &mut names, &Limits::opening())?;
    same(&rt, "count", classes.count(), 24);
    let transaction = names.intern("transaction")?;
    let found = classes.find(transaction);
    same(
        &rt,
        "transaction",
        found,
        Some(ClassRef::Class(ClassId(62))),
    );
    let binlog = names.intern("wait/io/file/sql/binlog")?;
    let found = classes.find(binlog);
    same(&rt, "binlog", found, Some(ClassRef::Class(ClassId(6))));
    register_mutexes(&rt, &mut classes, &mut names)?;
    same(&rt, "with mutexes", classes.count(), 33);
    let text = "wait/synch/mutex/test/m";
    let told = register(&rt, &mut classes, &mut names, text)?;
    same(&rt, "lost", told, Ok(Registered::Lost(Kind::Mutex, 1)));
    let told = register(&rt, &mut classes, &mut names, text)?;
    same(&rt, "again", told, Err(ClassFault::Duplicate));
    Ok(())
}

// With no room for a class of files the three of the list are lost.
#[test]
fn loses_builtins(rt: HostRuntime) -> Result<(), Fail> {
    let alloc = rt.alloc();
    let mut names = Names::new(alloc);
    let mut limits = Limits::opening();
    limits.file_classes = 0;
    let classes = builtins(alloc, &mut names, &limits)?;
    let counts = (classes.count(), classes.lost(Kind::File));
    same(&rt, "counts", counts, (21, 3));
    let binlog = names.intern("wait/io/file/sql/binlog")?;
    let found = classes.find(binlog);
    same(&rt, "binlog", found, Some(ClassRef::Lost(Kind::File)));
    Ok(())
}

#[test]
fn lists_tables_and_digests(rt: HostRuntime) -> Result<(), Fail> {
    let alloc = rt.alloc();
    let schema = Text::from_slice(alloc, b"mysql")?;
    let name = Text::from_slice(alloc, b"t")?;
    let mut tables = TableList::new(Vec::new(alloc));
    tables.push(TableName { schema, name })?;
    assert_eq!(rt; tables.as_slice().len(), 1);
    let text = Text::from_slice(alloc, b"SELECT ?")?;
    let mut digests = DigestList::new(Vec::new(alloc));
    digests.push(DigestText { text })?;
    assert_eq!(rt; digests.as_slice().len(), 1);
    Ok(())
}
