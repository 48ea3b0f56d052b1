//! Why a command is refused on a table.
ghost use Rattle.std.specs.Prelude.{◌≡◌, position, slice_get, unwrap_or, []};
ghost use Rattle.std.specs.List.{list_any};
ghost use Rattle.std.specs.Option.{option_and_then, option_copied};
ghost use Rattle.pfs_catalogue.specs.Columns.{column_place, kind_at};
ghost use Rattle.pfs_exec.specs.Plans as spec;

use pfs_catalogue::{ColumnKind, CommandKind, Flag, allows, column_kind, find_column, flag_place};
use pfs_matching::ObjectKind;
use pfs_rows::Table;
use pfs_sql::{Assignment, Command, InsertCommand, NamedOrder, NamedTest, SqlError, TextList};
use pfs_text::{Literal, TestKind, Text};

/// The first reason to refuse the command on the table, if there is one.
pub(crate) fn fault_of(table: Table, command: &Command) -> Option<SqlError>
    ensures { result ≡ spec.fault_of table command.now }
{
    if !allows(table, kind_of(command)) {
        return Some(SqlError::CommandDenied);
    }
    if has_unknown_column(table, command) {
        return Some(SqlError::UnknownColumn);
    }
    if has_wrong_type(table, command) {
        return Some(SqlError::Parse);
    }
    if is_wrong_change(table, command) {
        return Some(SqlError::WrongUsage);
    }
    None
}

fn kind_of(command: &Command) -> CommandKind
    ensures { result ≡ spec.kind_of command.now }
{
    match command {
        Command::Select(_) => CommandKind::Select,
        Command::Update(_) => CommandKind::Update,
        Command::Insert(_) => CommandKind::Insert,
        Command::Delete(_) => CommandKind::Delete,
        Command::Truncate(_) => CommandKind::Truncate,
    }
}

fn has_unknown_column(table: Table, command: &Command) -> bool
    ensures { result ≡ spec.has_unknown_column table command.now }
{
    match command {
        Command::Select(select) => {
            listed_unknown(table, &select.columns)
                || tests_unknown(table, select.tests.as_slice())
                || orders_unknown(table, select.order.as_slice())
        }
        Command::Update(update) => {
            sets_unknown(table, update.sets.as_slice())
                || tests_unknown(table, update.tests.as_slice())
        }
        Command::Insert(insert) => listed_unknown(table, &insert.columns),
        Command::Delete(delete) => tests_unknown(table, delete.tests.as_slice()),
        Command::Truncate(_) => false,
    }
}

fn is_unknown(table: Table, name: &Text) -> bool
    ensures { result ≡ spec.is_unknown table name.now }
{
    find_column(table, name.as_bytes()).is_none()
}

fn listed_unknown(table: Table, columns: &Option<TextList>) -> bool
    ensures { result ≡ list_any (spec.is_unknown table) (unwrap_or columns.now []) }
{
    match columns {
        Some(names) => names_unknown(table, names.as_slice()),
        None => false,
    }
}

fn names_unknown(table: Table, names: &[Text]) -> bool
    ensures { result ≡ list_any (spec.is_unknown table) names.now }
{
    for name in names {
        if is_unknown(table, name) {
            return true;
        }
    }
    false
}

fn tests_unknown(table: Table, tests: &[NamedTest]) -> bool
    ensures { result ≡ spec.tests_unknown table tests.now }
{
    for test in tests {
        if is_unknown(table, &test.column) {
            return true;
        }
    }
    false
}

fn orders_unknown(table: Table, orders: &[NamedOrder]) -> bool
    ensures { result ≡ list_any (λ order. spec.is_unknown table order.column) orders.now }
{
    for order in orders {
        if is_unknown(table, &order.column) {
            return true;
        }
    }
    false
}

fn sets_unknown(table: Table, sets: &[Assignment]) -> bool
    ensures { result ≡ list_any (λ set. spec.is_unknown table set.column) sets.now }
{
    for set in sets {
        if is_unknown(table, &set.column) {
            return true;
        }
    }
    false
}

fn has_wrong_type(table: Table, command: &Command) -> bool
    ensures { result ≡ spec.has_wrong_type table command.now }
{
    match command {
        Command::Select(select) => tests_mistyped(table, select.tests.as_slice()),
        Command::Update(update) => tests_mistyped(table, update.tests.as_slice()),
        Command::Delete(delete) => tests_mistyped(table, delete.tests.as_slice()),
        Command::Insert(_) | Command::Truncate(_) => false,
    }
}

fn tests_mistyped(table: Table, tests: &[NamedTest]) -> bool
    ensures { result ≡ spec.tests_mistyped table tests.now }
{
    for test in tests {
        if is_mistyped(kind_named(table, &test.column), &test.kind) {
            return true;
        }
    }
    false
}

fn kind_named(table: Table, name: &Text) -> Option<ColumnKind>
    ensures { result ≡ option_and_then (kind_at table) (column_place table name.now) }
{
    match find_column(table, name.as_bytes()) {
        Some(place) => column_kind(table, place),
        None => None,
    }
}

fn is_mistyped(kind: Option<ColumnKind>, test: &TestKind) -> bool
    ensures { result ≡ spec.is_mistyped kind test.now }
{
    match (kind, test) {
        (Some(ColumnKind::Text), TestKind::Compare(_, Literal::Number(_))) => true,
        (Some(ColumnKind::Number), TestKind::Compare(_, Literal::Text(_))) => true,
        (Some(ColumnKind::Number), TestKind::Like(_)) => true,
        _ => false,
    }
}

fn is_wrong_change(table: Table, command: &Command) -> bool
    ensures { result ≡ spec.is_wrong_change table command.now }
{
    match command {
        Command::Update(update) => sets_wrong(table, update.sets.as_slice()),
        Command::Insert(insert) => is_wrong_insert(table, insert),
        Command::Select(_) | Command::Delete(_) | Command::Truncate(_) => false,
    }
}

fn sets_wrong(table: Table, sets: &[Assignment]) -> bool
    ensures { result ≡ list_any (spec.is_wrong_set table) sets.now }
{
    for set in sets {
        if is_wrong_set(table, set) {
            return true;
        }
    }
    false
}

fn is_wrong_set(table: Table, set: &Assignment) -> bool
    ensures { result ≡ spec.is_wrong_set table set.now }
{
    let may_change = is_flag(table, Flag::First, &set.column)
        || is_flag(table, Flag::Second, &set.column);
    !may_change || flag_value(set.value.as_bytes()).is_none()
}

/// Whether the column of that name shows this flag of a row.
pub(crate) fn is_flag(table: Table, flag: Flag, name: &Text) -> bool
    ensures { result ≡ spec.is_flag table flag name.now }
{
    same_place(flag_place(table, flag), find_column(table, name.as_bytes()))
}

fn same_place(a: Option<u64>, b: Option<u64>) -> bool
    ensures { result ≡ spec.same_place a b }
{
    match (a, b) {
        (Some(a), Some(b)) => a == b,
        _ => false,
    }
}

/// What the text of a flag says.
pub(crate) fn flag_value(text: &[u8]) -> Option<bool>
    ensures { result ≡ spec.flag_value text.now }
{
    if text == b"YES".as_slice() {
        Some(true)
    } else if text == b"NO".as_slice() {
        Some(false)
    } else {
        None
    }
}

fn is_wrong_insert(table: Table, insert: &InsertCommand) -> bool
    ensures { result ≡ spec.is_wrong_insert table insert.now }
{
    match table {
        Table::SetupObjects => is_wrong_object(insert),
        _ => is_wrong_actor(insert),
    }
}

fn is_wrong_actor(insert: &InsertCommand) -> bool
    ensures { result ≡ spec.is_wrong_actor insert.now }
{
    let enabled = flag_value(value_or(Table::SetupActors, insert, 3, b"YES"));
    let history = flag_value(value_or(Table::SetupActors, insert, 4, b"YES"));
    enabled.is_none() || history.is_none()
}

fn is_wrong_object(insert: &InsertCommand) -> bool
    ensures { result ≡ spec.is_wrong_object insert.now }
{
    let kind = object_kind(value_or(Table::SetupObjects, insert, 0, b"TABLE"));
    let enabled = flag_value(value_or(Table::SetupObjects, insert, 3, b"YES"));
    let timed = flag_value(value_or(Table::SetupObjects, insert, 4, b"YES"));
    kind.is_none() || enabled.is_none() || timed.is_none()
}

/// The kind of objects of that name.
pub(crate) fn object_kind(text: &[u8]) -> Option<ObjectKind>
    ensures { result ≡ spec.kind_named text.now }
{
    ObjectKind::find(text)
}

/// The value that an INSERT gives to the column at a place, or what a missing one is.
pub(crate) fn value_or<'a>(
    table: Table,
    insert: &'a InsertCommand,
    place: u64,
    missing: &'a [u8],
) -> &'a [u8]
    ensures { result.now ≡ spec.value_or table insert.now place missing.now }
{
    match value_given(table, insert, place) {
        Some(value) => value.as_bytes(),
        None => missing,
    }
}

fn value_given<'a>(table: Table, insert: &'a InsertCommand, place: u64) -> Option<&'a Text>
    ensures { option_copied result ≡ spec.value_given table insert.now.columns insert.now.values place }
{
    match &insert.columns {
        None => insert.values.as_slice().get(place as usize),
        Some(names) => value_among(table, names.as_slice(), insert.values.as_slice(), place),
    }
}

// The value in the position of the name of the column at the place; none where the list hasn't that column.
fn value_among<'a>(table: Table, names: &[Text], values: &'a [Text], place: u64) -> Option<&'a Text>
    ensures { option_copied result
        ≡ option_and_then (slice_get values.now) (position (spec.stands_at table place) names.now) }
{
    match position_of(table, names, place) {
        Some(position) => values.get(position),
        None => None,
    }
}

// The position of the name of the column at the place.
fn position_of(table: Table, names: &[Text], place: u64) -> Option<usize>
    ensures { result ≡ position (spec.stands_at table place) names.now }
{
    names.iter().position(|name| stands_at(table, place, name))
}

fn stands_at(table: Table, place: u64, name: &Text) -> bool
    ensures { result ≡ spec.stands_at table place name.now }
{
    same_place(Some(place), find_column(table, name.as_bytes()))
}
