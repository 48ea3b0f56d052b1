//! Worked rows: ties keep their order, NULL goes first and last under DESC, the limit comes behind the filter. Texts
//! with MySQL's number of their refusal.
use crate::asserts::same;
use pfs_exec::{TestList, *};
use pfs_rows::Table;
use pfs_sql::{SqlFault, parse};
use pfs_text::{Comparison, Literal, Row, RowValue, Rowset, Test, TestKind, Text};
use std::alloc::Global;
use std::test::Fail;

// A number and a letter in each row; None shows NULL.
fn rows_of(alloc: Global, shown: &[(Option<u64>, &str)]) -> Result<Rowset, NoMemory> {
    let mut rows = Rowset::new(Vec::new(alloc));
    for (number, letter) in shown {
        let mut row = Row::new(Vec::new(alloc));
        match number {
            Some(number) => row.push(RowValue::Number(*number))?,
            None => row.push(RowValue::Null)?,
        }
        let text = Text::from_slice(alloc, letter.as_bytes())?;
        row.push(RowValue::Text(text))?;
        rows.push(row)?;
    }
    Ok(rows)
}

// The letters of the rows that are answered, one behind another.
fn letters(alloc: Global, query: &Select, rows: &Rowset) -> Result<Vec<u8>, NoMemory> {
    let answer = select(alloc, query, rows)?;
    let mut letters = Vec::new(alloc);
    for row in answer.as_slice() {
        for value in row.as_slice() {
            if let RowValue::Text(text) = value {
                for byte in text.as_bytes() {
                    letters.push(*byte)?;
                }
            }
        }
    }
    Ok(letters)
}

fn query_of(
    alloc: Global,
    order: Order,
    most: u64,
    limit: Option<u64>,
) -> Result<Select, NoMemory> {
    let test = Test {
        column: 0,
        kind: TestKind::Compare(Comparison::AtMost, Literal::Number(most)),
    };
    let tests = match most {
        u64::MAX => vec![in alloc]?,
        _ => vec![in alloc; test]?,
    };
    Ok(Select {
        table: Table::Users,
        columns: NumberList::new(vec![in alloc; 1]?),
        tests: TestList::new(tests),
        order: OrderList::new(vec![in alloc; order]?),
        limit,
    })
}

// Whether the numbers descend, the most that one may be, the limit, and the letters.
const WORKED: [(bool, u64, Option<u64>, &[u8]); 4] = [
    (false, u64::MAX, None, b"beadc"),
    (true, u64::MAX, None, b"cadbe"),
    (true, 9, Some(1), b"a"),
    (false, 9, Some(7), b"ad"),
];

#[test]
fn worked_rows(rt: HostRuntime) -> Result<(), Fail> {
    let alloc = rt.alloc();
    let rows = rows_of(
        alloc,
        &[
            (Some(2), "a"),
            (None, "b"),
            (Some(10), "c"),
            (Some(2), "d"),
            (None, "e"),
        ],
    )?;
    for (descending, most, limit, want) in &WORKED {
        let order = Order {
            column: 0,
            descending: *descending,
        };
        let query = query_of(alloc, order, *most, *limit)?;
        let letters = letters(alloc, &query, &rows)?;
        same(&rt, "letters", letters.as_slice(), *want);
    }
    Ok(())
}

// No rows have no answer but the empty one.
#[test]
fn no_rows(rt: HostRuntime) -> Result<(), Fail> {
    let alloc = rt.alloc();
    let order = Order {
        column: 0,
        descending: false,
    };
    let query = query_of(alloc, order, u64::MAX, None)?;
    let rows = rows_of(alloc, &[])?;
    let answer = select(alloc, &query, &rows)?;
    assert!(rt; answer.as_slice().is_empty());
    Ok(())
}

fn number_of(fault: SqlFault) -> u16 {
    match fault {
        SqlFault::Error(error) => error.number(),
        SqlFault::NoMemory => 1,
    }
}

// MySQL's number of what a text is refused with; 0 where it has a plan, and 1 where memory runs out.
fn refused_with(alloc: Global, text: &str) -> u16 {
    match parse(alloc, text.as_bytes()) {
        Ok(command) => match plan(alloc, command) {
            Ok(_) => 0,
            Err(fault) => number_of(fault),
        },
        Err(fault) => number_of(fault),
    }
}

const REFUSED: [(&str, u16); 36] = [
    (
        "SELECT user, USER FROM performance_schema.Accounts ORDER BY host DESC LIMIT 3",
        0,
    ),
    (
        "SELECT * FROM threads WHERE thread_id >= 2 AND HISTORY LIKE 'Y%'",
        0,
    ),
    (
        "UPDATE threads SET HISTORY='NO', instrumented='YES' WHERE THREAD_ID=1",
        0,
    ),
    (
        "UPDATE setup_consumers SET ENABLED='NO' WHERE NAME LIKE '%'",
        0,
    ),
    (
        "INSERT INTO setup_actors VALUES ('h','u','r','NO','YES')",
        0,
    ),
    ("INSERT INTO setup_objects (OBJECT_NAME) VALUES ('t')", 0),
    ("DELETE FROM setup_objects WHERE OBJECT_TYPE='EVENT'", 0),
    ("TRUNCATE TABLE events_waits_history_long", 0),
    ("SELECT * FROM threads;;", 1064),
    ("INSERT INTO nothing VALUES ('a')", 1064),
    ("INSERT INTO users (USER, user) VALUES ('a','b')", 1064),
    ("UPDATE nothing SET a='x', A='y'", 1064),
    ("SELECT * FROM nothing", 1146),
    ("SELECT nope FROM nothing WHERE nope='x'", 1146),
    ("DELETE FROM nothing WHERE nope=1", 1146),
    ("TRUNCATE threads", 1142),
    ("TRUNCATE setup_consumers", 1142),
    ("UPDATE users SET USER='x'", 1142),
    ("DELETE FROM threads WHERE nope=1", 1142),
    ("DELETE FROM threads WHERE THREAD_ID LIKE 'x'", 1142),
    ("INSERT INTO users (nope) VALUES ('x')", 1142),
    ("SELECT nope FROM threads", 1054),
    ("SELECT * FROM threads ORDER BY nope", 1054),
    ("SELECT nope FROM threads WHERE THREAD_ID='1'", 1054),
    ("UPDATE setup_consumers SET TIMED='maybe'", 1054),
    ("UPDATE threads SET THREAD_ID='x' WHERE nope=1", 1054),
    (
        "INSERT INTO setup_actors (nope, ENABLED) VALUES ('x','maybe')",
        1054,
    ),
    ("SELECT * FROM threads WHERE THREAD_ID='1'", 1064),
    ("SELECT * FROM threads WHERE HISTORY=1", 1064),
    ("SELECT * FROM threads WHERE THREAD_ID LIKE '1%'", 1064),
    (
        "UPDATE threads SET THREAD_ID='maybe' WHERE THREAD_ID='1'",
        1064,
    ),
    ("UPDATE threads SET THREAD_ID='maybe'", 1683),
    ("UPDATE threads SET THREAD_ID='YES'", 1683),
    ("UPDATE threads SET HISTORY='yes'", 1683),
    ("INSERT INTO setup_actors (HISTORY) VALUES ('')", 1683),
    (
        "INSERT INTO setup_objects (OBJECT_TYPE) VALUES ('table')",
        1683,
    ),
];

// Where two reasons hold, the first of their order is told.
#[test]
fn texts_refused(rt: HostRuntime) {
    for (text, want) in &REFUSED {
        same(&rt, text, refused_with(rt.alloc(), text), *want);
    }
}
