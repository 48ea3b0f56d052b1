//! What queries on the actors and the objects of an opening answer.
use pfs_exec::{NumberList, OrderList, Select, TestList};
use pfs_matching::{Actors, Objects};
use pfs_rows::Table;
use pfs_setups::show;
use pfs_text::{Comparison, Literal, RowValue, Rowset, Test, TestKind, Text};
use std::alloc::{AllocError, Global};
use std::test::Fail;

// The texts of the rows, each behind a space.
fn texts(alloc: Global, rows: &Rowset) -> Result<Vec<u8>, AllocError> {
    let mut texts = Vec::new(alloc);
    for row in rows.as_slice() {
        for value in row.as_slice() {
            if let RowValue::Text(text) = value {
                texts.push(b' ')?;
                for byte in text.as_bytes() {
                    texts.push(*byte)?;
                }
            }
        }
    }
    Ok(texts)
}

#[test]
fn one_actor(rt: HostRuntime) -> Result<(), Fail> {
    let alloc = rt.alloc();
    let actors = Actors::open(alloc)?;
    let objects = Objects::open(alloc)?;
    let query = Select {
        table: Table::SetupActors,
        columns: NumberList::new(vec![in alloc; 0, 1, 2, 3, 4]?),
        tests: TestList::new(vec![in alloc]?),
        order: OrderList::new(vec![in alloc]?),
        limit: None,
    };
    let answer = show(alloc, &query, &actors, &objects)?;
    assert_eq!(rt;
        texts(alloc, &answer)?.as_slice(),
        b" % % % YES YES".as_slice()
    );
    Ok(())
}

// Of each of five kinds of objects those of three schemas are off, and all others are on.
#[test]
fn the_tables_among_the_objects(rt: HostRuntime) -> Result<(), Fail> {
    let alloc = rt.alloc();
    let actors = Actors::open(alloc)?;
    let objects = Objects::open(alloc)?;
    let kind = Text::from_slice(alloc, b"TABLE")?;
    let test = Test {
        column: 0,
        kind: TestKind::Compare(Comparison::Equal, Literal::Text(kind)),
    };
    let query = Select {
        table: Table::SetupObjects,
        columns: NumberList::new(vec![in alloc; 1, 2, 3]?),
        tests: TestList::new(vec![in alloc; test]?),
        order: OrderList::new(vec![in alloc]?),
        limit: None,
    };
    let answer = show(alloc, &query, &actors, &objects)?;
    assert_eq!(rt;
        texts(alloc, &answer)?.as_slice(),
        b" % % YES information_schema % NO mysql % NO performance_schema % NO".as_slice()
    );
    Ok(())
}
