//! The parts of a plan.
ghost use Rattle.std.specs.Prelude.{◌≡◌, IfOk, None, map};
ghost use Rattle.pfs_exec.specs.Plans as spec;

use crate::checking::{flag_value, is_flag, object_kind, value_or};
use crate::{Insert, NewRow, NoMemory, NumberList, Order, OrderList, TestList, Update};
use pfs_catalogue::{Flag, column_count, find_column};
use pfs_matching::{ActorRow, FlagChange, ObjectKind, ObjectRow};
use pfs_rows::Table;
use pfs_sql::{
    Assignment, InsertCommand, NamedOrder, NamedOrderList, NamedTestList, TextList, UpdateCommand,
};
use pfs_text::{Test, Text};
use std::alloc::Global;

fn place_of(table: Table, name: &Text) -> u64
    ensures { result ≡ spec.place_of table name.now }
{
    find_column(table, name.as_bytes()).unwrap_or(0)
}

/// The places of the columns that are named, or of all in their order.
pub(crate) fn places_of(
    alloc: Global,
    table: Table,
    columns: &Option<TextList>,
) -> Result<NumberList, NoMemory>
    ensures { IfOk result (λ places. places ≡ spec.places_of table columns.now) }
{
    match columns {
        Some(names) => named_places(alloc, table, names.as_slice()),
        None => all_places(alloc, table),
    }
}

fn named_places(alloc: Global, table: Table, names: &[Text]) -> Result<NumberList, NoMemory>
    ensures { IfOk result (λ places. places ≡ map (spec.place_of table) names.now) }
{
    let mut places = Vec::new(alloc);
    for name in names {
        places.push(place_of(table, name))?;
    }
    Ok(NumberList::new(places))
}

fn all_places(alloc: Global, table: Table) -> Result<NumberList, NoMemory>
    ensures { IfOk result (λ places. places ≡ spec.places_of table None) }
{
    let mut places = Vec::new(alloc);
    for place in 0..column_count(table) {
        places.push(place)?;
    }
    Ok(NumberList::new(places))
}

/// The conditions with their columns by places.
pub(crate) fn tests_of(
    alloc: Global,
    table: Table,
    tests: NamedTestList,
) -> Result<TestList, NoMemory>
    ensures { IfOk result (λ list. list ≡ map (spec.test_of table) tests) }
{
    let mut list = Vec::new(alloc);
    for test in tests.into_vec() {
        let column = place_of(table, &test.column);
        list.push(Test {
            column,
            kind: test.kind,
        })?;
    }
    Ok(TestList::new(list))
}

/// The order with its columns by places.
pub(crate) fn orders_of(
    alloc: Global,
    table: Table,
    orders: &NamedOrderList,
) -> Result<OrderList, NoMemory>
    ensures { IfOk result (λ list. list ≡ map (spec.order_of table) orders.now) }
{
    let mut list = Vec::new(alloc);
    for order in orders.as_slice() {
        list.push(order_of(table, order))?;
    }
    Ok(OrderList::new(list))
}

fn order_of(table: Table, order: &NamedOrder) -> Order
    ensures { result ≡ spec.order_of table order.now }
{
    Order {
        column: place_of(table, &order.column),
        descending: order.descending,
    }
}

/// The change of an UPDATE.
pub(crate) fn update_of(
    alloc: Global,
    table: Table,
    update: UpdateCommand,
) -> Result<Update, NoMemory>
    ensures { IfOk result (λ change. change ≡ spec.update_of table update) }
{
    let change = FlagChange {
        first: flag_set(table, Flag::First, update.sets.as_slice()),
        second: flag_set(table, Flag::Second, update.sets.as_slice()),
    };
    let tests = tests_of(alloc, table, update.tests)?;
    Ok(Update {
        table,
        change,
        tests,
    })
}

fn flag_set(table: Table, flag: Flag, sets: &[Assignment]) -> Option<bool>
    ensures { result ≡ spec.flag_set table flag sets.now }
{
    for set in sets {
        if is_flag(table, flag, &set.column) {
            return flag_value(set.value.as_bytes());
        }
    }
    None
}

/// The row of an INSERT with its table.
pub(crate) fn insert_of(
    alloc: Global,
    table: Table,
    insert: &InsertCommand,
) -> Result<Insert, NoMemory>
    ensures { IfOk result (λ change. change ≡ spec.insert_of table insert.now) }
{
    match table {
        Table::SetupObjects => {
            let row = object_of(alloc, insert)?;
            Ok(Insert {
                table: Table::SetupObjects,
                row: NewRow::Object(row),
            })
        }
        _ => {
            let row = actor_of(alloc, insert)?;
            Ok(Insert {
                table: Table::SetupActors,
                row: NewRow::Actor(row),
            })
        }
    }
}

fn actor_of(alloc: Global, insert: &InsertCommand) -> Result<ActorRow, NoMemory>
    ensures { IfOk result (λ row. row ≡ spec.actor_of insert.now) }
{
    let enabled = flag_value(value_or(Table::SetupActors, insert, 3, b"YES"));
    let history = flag_value(value_or(Table::SetupActors, insert, 4, b"YES"));
    let host = Text::from_slice(alloc, value_or(Table::SetupActors, insert, 0, b"%"))?;
    let user = Text::from_slice(alloc, value_or(Table::SetupActors, insert, 1, b"%"))?;
    let role = Text::from_slice(alloc, value_or(Table::SetupActors, insert, 2, b"%"))?;
    Ok(ActorRow {
        host,
        user,
        role,
        enabled: enabled.unwrap_or(false),
        history: history.unwrap_or(false),
    })
}

fn object_of(alloc: Global, insert: &InsertCommand) -> Result<ObjectRow, NoMemory>
    ensures { IfOk result (λ row. row ≡ spec.object_of insert.now) }
{
    let kind = object_kind(value_or(Table::SetupObjects, insert, 0, b"TABLE"));
    let enabled = flag_value(value_or(Table::SetupObjects, insert, 3, b"YES"));
    let timed = flag_value(value_or(Table::SetupObjects, insert, 4, b"YES"));
    let schema = Text::from_slice(alloc, value_or(Table::SetupObjects, insert, 1, b"%"))?;
    let name = Text::from_slice(alloc, value_or(Table::SetupObjects, insert, 2, b"%"))?;
    Ok(ObjectRow {
        kind: kind.unwrap_or(ObjectKind::Table),
        schema,
        name,
        enabled: enabled.unwrap_or(false),
        timed: timed.unwrap_or(false),
    })
}
