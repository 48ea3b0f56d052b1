//! Texts from MySQL's grammar with what each says, worked out by hand, and texts that say nothing.
use crate::asserts::same;
use pfs_sql::*;
use pfs_text::{Comparison, Literal, TestKind, Text, put_u64, quote};
use std::test::Fail;

fn put_names(out: &mut Vec<u8>, names: &[Text]) -> Result<(), NoMemory> {
    for name in names {
        out.push(b' ')?;
        quote(out, name.as_bytes())?;
    }
    Ok(())
}

fn put_columns(out: &mut Vec<u8>, columns: &Option<TextList>) -> Result<(), NoMemory> {
    match columns {
        None => out.extend_from_slice(b" all")?,
        Some(names) => put_names(out, names.as_slice())?,
    }
    Ok(())
}

fn sign(comparison: Comparison) -> &'static [u8] {
    match comparison {
        Comparison::Equal => b"=",
        Comparison::Unequal => b"!",
        Comparison::Less => b"<",
        Comparison::AtMost => b"<=",
        Comparison::Greater => b">",
        Comparison::AtLeast => b">=",
    }
}

fn put_literal(out: &mut Vec<u8>, literal: &Literal) -> Result<(), NoMemory> {
    match literal {
        Literal::Number(number) => put_u64(out, *number),
        Literal::Text(text) => quote(out, text.as_bytes()),
    }
}

fn put_kind(out: &mut Vec<u8>, kind: &TestKind) -> Result<(), NoMemory> {
    match kind {
        TestKind::Compare(comparison, literal) => {
            out.extend_from_slice(sign(*comparison))?;
            put_literal(out, literal)
        }
        TestKind::Like(pattern) => {
            out.push(b'~')?;
            quote(out, pattern.as_bytes())
        }
        TestKind::IsNull => out.extend_from_slice(b" none"),
        TestKind::IsNotNull => out.extend_from_slice(b" some"),
    }
}

fn put_tests(out: &mut Vec<u8>, tests: &[NamedTest]) -> Result<(), NoMemory> {
    for test in tests {
        out.extend_from_slice(b" if ")?;
        out.extend_from_slice(test.column.as_bytes())?;
        put_kind(out, &test.kind)?;
    }
    Ok(())
}

fn put_order(out: &mut Vec<u8>, order: &[NamedOrder]) -> Result<(), NoMemory> {
    for item in order {
        out.extend_from_slice(if item.descending {
            b" down "
        } else {
            b" upon "
        })?;
        out.extend_from_slice(item.column.as_bytes())?;
    }
    Ok(())
}

fn put_select(out: &mut Vec<u8>, select: &SelectCommand) -> Result<(), NoMemory> {
    out.extend_from_slice(b"select ")?;
    out.extend_from_slice(select.table.as_bytes())?;
    put_columns(out, &select.columns)?;
    put_tests(out, select.tests.as_slice())?;
    put_order(out, select.order.as_slice())?;
    if let Some(limit) = select.limit {
        out.extend_from_slice(b" most ")?;
        put_u64(out, limit)?;
    }
    Ok(())
}

fn put_update(out: &mut Vec<u8>, update: &UpdateCommand) -> Result<(), NoMemory> {
    out.extend_from_slice(b"update ")?;
    out.extend_from_slice(update.table.as_bytes())?;
    for set in update.sets.as_slice() {
        out.push(b' ')?;
        out.extend_from_slice(set.column.as_bytes())?;
        out.push(b'=')?;
        quote(out, set.value.as_bytes())?;
    }
    put_tests(out, update.tests.as_slice())
}

fn put_insert(out: &mut Vec<u8>, insert: &InsertCommand) -> Result<(), NoMemory> {
    out.extend_from_slice(b"insert ")?;
    out.extend_from_slice(insert.table.as_bytes())?;
    put_columns(out, &insert.columns)?;
    out.push(b':')?;
    put_names(out, insert.values.as_slice())
}

fn put_command(out: &mut Vec<u8>, command: &Command) -> Result<(), NoMemory> {
    match command {
        Command::Select(select) => put_select(out, select),
        Command::Update(update) => put_update(out, update),
        Command::Insert(insert) => put_insert(out, insert),
        Command::Delete(delete) => {
            out.extend_from_slice(b"delete ")?;
            out.extend_from_slice(delete.table.as_bytes())?;
            put_tests(out, delete.tests.as_slice())
        }
        Command::Truncate(truncate) => {
            out.extend_from_slice(b"truncate ")?;
            out.extend_from_slice(truncate.table.as_bytes())
        }
    }
}

fn put_answer(out: &mut Vec<u8>, answer: Result<Command, SqlFault>) -> Result<(), NoMemory> {
    match answer {
        Ok(command) => put_command(out, &command),
        Err(SqlFault::Error(error)) => put_u64(out, error.number() as u64),
        Err(SqlFault::NoMemory) => out.extend_from_slice(b"no memory"),
    }
}

// Each text, and what it says: 1064 where that is nothing.
const TEXTS: [(&str, &str); 80] = [
    ("SELECT * FROM threads", "select threads all"),
    ("select * from threads;", "select threads all"),
    ("\tSELECT\t*\tFROM\tthreads ; \t", "select threads all"),
    ("SELECT*FROM t", "select t all"),
    ("SELECT a,B_2 , c3 FROM T", "select T 'a' 'B_2' 'c3'"),
    ("SELECT a, a FROM t", "select t 'a' 'a'"),
    ("SELECT * FROM performance_schema.users", "select users all"),
    ("SELECT * FROM Performance_Schema.Users", "select Users all"),
    ("SELECT from FROM from", "select from 'from'"),
    (
        "SELECT select, where FROM order WHERE where = 1",
        "select order 'select' 'where' if where=1",
    ),
    ("SELECT 1 FROM 2", "select 2 '1'"),
    (
        "SELECT * FROM t WHERE a=0018446744073709551615",
        "select t all if a=18446744073709551615",
    ),
    (
        "SELECT * FROM t WHERE a <> 'x' AND b != 'it''s'",
        "select t all if a!'x' if b!'it''s'",
    ),
    (
        "SELECT * FROM t WHERE a<1 and b<=2 And c>3 aND d>=4",
        "select t all if a<1 if b<=2 if c>3 if d>=4",
    ),
    (
        "SELECT * FROM t WHERE a LIKE 'wait/%'",
        "select t all if a~'wait/%'",
    ),
    (
        "SELECT * FROM t WHERE a IS NULL AND b is not null",
        "select t all if a none if b some",
    ),
    (
        "SELECT * FROM t WHERE is IS NULL AND and LIKE ''",
        "select t all if is none if and~''",
    ),
    ("SELECT * FROM t WHERE a=''''", "select t all if a=''''"),
    (
        "SELECT * FROM t WHERE a='1'AND b=2",
        "select t all if a='1' if b=2",
    ),
    ("SELECT * FROM t ORDER BY a", "select t all upon a"),
    (
        "SELECT * FROM t ORDER BY a ASC, b DESC, c",
        "select t all upon a down b upon c",
    ),
    (
        "SELECT * FROM t ORDER BY desc DESC",
        "select t all down desc",
    ),
    ("SELECT * FROM t ORDER BY asc", "select t all upon asc"),
    (
        "SELECT * FROM t ORDER BY by LIMIT 007",
        "select t all upon by most 7",
    ),
    ("SELECT * FROM t LIMIT 0", "select t all most 0"),
    (
        "SELECT a FROM t WHERE b = 1 ORDER BY c DESC LIMIT 5;",
        "select t 'a' if b=1 down c most 5",
    ),
    (
        "UPDATE setup_consumers SET ENABLED = 'NO'",
        "update setup_consumers ENABLED='NO'",
    ),
    (
        "update t set a='x',b='y' where c = 'z'",
        "update t a='x' b='y' if c='z'",
    ),
    ("UPDATE set SET set='set'", "update set set='set'"),
    (
        "INSERT INTO t VALUES ('a','b','c','d','e')",
        "insert t all: 'a' 'b' 'c' 'd' 'e'",
    ),
    ("INSERT INTO t (HOST) VALUES('h');", "insert t 'HOST': 'h'"),
    (
        "insert into values (values, into) values ('1', '2')",
        "insert values 'values' 'into': '1' '2'",
    ),
    ("DELETE FROM t", "delete t"),
    ("DELETE FROM t WHERE a = '' ;", "delete t if a=''"),
    ("TRUNCATE t", "truncate t"),
    ("TRUNCATE TABLE performance_schema.t;", "truncate t"),
    ("TRUNCATE table", "truncate table"),
    ("TRUNCATE TABLE table ;", "truncate table"),
    (
        "SELECT 1b FROM 2t WHERE 3c IS NULL",
        "select 2t '1b' if 3c none",
    ),
    ("", "1064"),
    (" ", "1064"),
    (";", "1064"),
    ("SELECT", "1064"),
    ("SELECT FROM t", "1064"),
    ("SELECT * FROM t;;", "1064"),
    ("SELECT * FROM t; ;", "1064"),
    ("SELECT * FROM t LIMIT 1 ORDER BY a", "1064"),
    ("SELECT * FROM t LIMIT 18446744073709551616", "1064"),
    ("SELECT * FROM t WHERE a = 18446744073709551616", "1064"),
    ("SELECT * FROM t WHERE a = 1b", "1064"),
    ("SELECT * FROM t WHERE a = b", "1064"),
    ("SELECT * FROM t WHERE a = -1", "1064"),
    ("SELECT * FROM t WHERE a = NULL", "1064"),
    ("SELECT * FROM t WHERE a LIKE 1", "1064"),
    ("SELECT * FROM t WHERE a = 'x", "1064"),
    ("SELECT * FROM t WHERE a = 'x''", "1064"),
    ("SELECT * FROM t WHERE a < > 1", "1064"),
    ("SELECT * FROM t WHERE a = 1 OR b = 2", "1064"),
    ("SELECT * FROM t WHERE a = 1, b = 2", "1064"),
    ("SELECT * FROM mysql.user", "1064"),
    ("SELECT * FROM performance_schema. t", "1064"),
    ("SELECT * FROM performance_schema .t", "1064"),
    ("SELECT * FROM performance_schema.", "1064"),
    ("SELECT t.a FROM t", "1064"),
    ("SELECT `a` FROM t", "1064"),
    ("SELECT * FROM t\n", "1064"),
    ("SELECT *, a FROM t", "1064"),
    ("SELECT a, FROM t", "1064"),
    ("UPDATE t SET a = 1", "1064"),
    ("UPDATE t SET a = 'x', A = 'y'", "1064"),
    ("INSERT INTO t VALUES ('a', 'b', 'c', 'd')", "1064"),
    ("INSERT INTO t VALUES ('a','b','c','d','e','f')", "1064"),
    ("INSERT INTO t (a, b) VALUES ('1')", "1064"),
    ("INSERT INTO t (a, A) VALUES ('1', '2')", "1064"),
    ("INSERT INTO t () VALUES ()", "1064"),
    ("DELETE t", "1064"),
    ("TRUNCATE", "1064"),
    ("TRUNCATE TABLE t u", "1064"),
    ("DROP TABLE t", "1064"),
    ("INSERT INTO t VALUES ('a','b','c','d','e') ; ;", "1064"),
];

#[test]
fn texts_say(rt: HostRuntime) -> Result<(), Fail> {
    let alloc = rt.alloc();
    for (text, want) in &TEXTS {
        let mut shown = Vec::new(alloc);
        put_answer(&mut shown, parse(alloc, text.as_bytes()))?;
        same(&rt, text, shown.as_slice(), want.as_bytes());
    }
    Ok(())
}

// MySQL's numbers.
#[test]
fn numbers(rt: HostRuntime) {
    same(&rt, "parse", SqlError::Parse.number(), 1064);
    same(&rt, "no table", SqlError::NoSuchTable.number(), 1146);
    same(&rt, "denied", SqlError::CommandDenied.number(), 1142);
    same(&rt, "no column", SqlError::UnknownColumn.number(), 1054);
    same(&rt, "usage", SqlError::WrongUsage.number(), 1683);
    same(&rt, "duplicate", SqlError::DuplicateEntry.number(), 1062);
    same(&rt, "full", SqlError::TableFull.number(), 1114);
}
