//! The rows of events.

ghost use Rattle.std.specs.Prelude.{◌≡◌, ◌++◌, ◌∷◌, [], ◌+◌, ◌%◌, ◌^◌, ◌==◌, ◌&&◌, not, ℕ, List, Bool, IfOk, OnOk, MatchOption, Some, None, option_and_then, slice_get, if◌then◌else◌, codes};
ghost use Rattle.std.specs.Option.{option_copied, option_map};
ghost use Rattle.pfs_classes.specs.Registry.{class_at};
ghost use Rattle.pfs_event.specs.declared.event.Event.{Event};
ghost use Rattle.pfs_text.specs.declared.values.RowValue.TheVariants as value;
ghost use Rattle.pfs_tables.specs.EventRows as spec;
ghost use Rattle.pfs_tables.specs.EventRows.{fields_of, event_in};
ghost use Rattle.pfs_tables.specs.PlaceTables.{event_row as spec_event_row, event_key as spec_event_key, keyed_event as spec_keyed_event};

use crate::NoMemory;
use crate::orders::{Keyed, RowKey, number_key};
use pfs_classes::{Class, ClassId, Classes, Setting, TRANSACTION};
use pfs_digest::digest;
use pfs_event::Event;
use pfs_names::{NameId, Names};
use pfs_rows::{EventTable, TableKind};
use pfs_text::{Row, RowValue, Text};
use std::alloc::Global;

/// The event with these words, or none exactly where no event has them.
pub(crate) fn event_of(words: &[u64; 16]) -> Option<Event>
    ensures { MatchOption result (event_in words.now ≡ None) (λ e. event_in words.now ≡ Some (fields_of e)) }
{
    Event::of_words(words)
}

/// A text as a value.
pub(crate) fn text_value(alloc: Global, bytes: &[u8]) -> Result<RowValue, NoMemory>
    ensures { IfOk result (λ v. v ≡ value.Text bytes.now) }
{
    let text = Text::from_slice(alloc, bytes)?;
    Ok(RowValue::Text(text))
}

// The class with this id.
fn class_of(classes: &Classes, id: u64) -> Option<Class>
    ensures { result ≡ class_at classes.now id }
{
    if id < classes.count() || id == TRANSACTION {
        Some(classes.class(ClassId(id)))
    } else {
        None
    }
}

/// The text of a name's id, where it is one of the names.
pub(crate) fn name_of(names: &Names, id: u64) -> Option<&str>
    ensures { option_copied result ≡ slice_get names.now id }
{
    if id < names.count() {
        Some(names.get(NameId(id)))
    } else {
        None
    }
}

/// The name of the class with this id, where the setting has both.
pub(crate) fn class_name(setting: &Setting, id: u64) -> Option<&str>
    ensures { option_copied result ≡ spec.class_name setting.now id }
{
    match class_of(&setting.classes, id) {
        Some(class) => name_of(&setting.names, class.name.0),
        None => None,
    }
}

fn where_true(test: bool, number: u64) -> RowValue
    ensures { result ≡ spec.where_true test number }
{
    if test {
        RowValue::Number(number)
    } else {
        RowValue::Null
    }
}

fn has_ended(event: &Event) -> bool
    ensures { result ≡ spec.has_ended (fields_of event.now) }
{
    event.last != 0
}

fn nesting_name(alloc: Global, nesting: u64) -> Result<RowValue, NoMemory>
    ensures { IfOk result (λ v. v ≡ spec.nesting_name nesting) }
{
    match nesting {
        1 => text_value(alloc, b"TRANSACTION"),
        2 => text_value(alloc, b"STATEMENT"),
        3 => text_value(alloc, b"STAGE"),
        4 => text_value(alloc, b"WAIT"),
        _ => Ok(RowValue::Null),
    }
}

// What every event table shows.
#[tactic(auto, unfolding(crate::specs::EventRows::event_head))]
fn event_head(alloc: Global, event: &Event, name: &str) -> Result<Vec<RowValue>, NoMemory>
    ensures { IfOk result (λ values. values.items ≡ spec.event_head (fields_of event.now) name.now) }
{
    let ended = has_ended(event);
    let name = text_value(alloc, name.as_bytes())?;
    let nesting = nesting_name(alloc, event.nesting)?;
    let values = vec![in alloc;
        RowValue::Number(event.session),
        RowValue::Number(event.number),
        where_true(ended, event.last),
        name,
        where_true(event.timed, event.start),
        where_true(
            event.timed && ended,
            event.start.wrapping_add(event.duration)
        ),
        where_true(event.timed && ended, event.duration),
        where_true(event.nesting != 0, event.parent),
        nesting,
    ]?;
    Ok(values)
}

// The table of a wait, or nothing where it is on none. None where the setting has no such table.
#[tactic(auto, unfolding(crate::specs::EventRows::object_of))]
fn object_of(alloc: Global, setting: &Setting, link: u64) -> Result<Option<Row>, NoMemory>
    ensures { IfOk result (λ row. row ≡ spec.object_of setting.now link) }
{
    if link == 0 {
        let none = vec![in alloc; RowValue::Null, RowValue::Null]?;
        return Ok(Some(Row::new(none)));
    }
    match setting.tables.as_slice().get(link as usize - 1) {
        Some(table) => {
            let schema = text_value(alloc, table.schema.as_bytes())?;
            let name = text_value(alloc, table.name.as_bytes())?;
            let values = vec![in alloc; schema, name]?;
            Ok(Some(Row::new(values)))
        }
        None => Ok(None),
    }
}

// The SHA-256 of a statement's digest text, or nothing where it has none. None where the setting has no such place.
#[tactic(auto, unfolding(crate::specs::EventRows::digest_of))]
fn digest_of(alloc: Global, setting: &Setting, link: u64) -> Result<Option<Row>, NoMemory>
    ensures { IfOk result (λ row. row ≡ spec.digest_of setting.now link) }
{
    if link == 0 {
        let none = vec![in alloc; RowValue::Null]?;
        return Ok(Some(Row::new(none)));
    }
    match setting.digests.as_slice().get(link as usize - 1) {
        Some(shown) => {
            let hash = digest(shown.text.as_bytes());
            let digits = hex::encode(alloc, hash.as_slice())?;
            let value = text_value(alloc, digits.as_bytes())?;
            let values = vec![in alloc; value]?;
            Ok(Some(Row::new(values)))
        }
        None => Ok(None),
    }
}

fn statement_values(alloc: Global, event: &Event) -> Result<Vec<RowValue>, NoMemory>
    ensures { IfOk result (λ values. values.items ≡ spec.statement_values (fields_of event.now)) }
{
    let values = vec![in alloc;
        RowValue::Number(event.lock),
        RowValue::Number(event.errors),
        RowValue::Number(event.warnings),
        RowValue::Number(event.affected),
        RowValue::Number(event.sent),
        RowValue::Number(event.examined),
    ]?;
    Ok(values)
}

// What the statement tables show of a statement beside.
fn statement_tail(alloc: Global, setting: &Setting, event: &Event) -> Result<Option<Row>, NoMemory>
    ensures { IfOk result (λ row. row ≡ option_map (λ digest. spec.statement_values (fields_of event.now) ++ digest)
        (spec.digest_of setting.now event.now.link)) }
{
    match digest_of(alloc, setting, event.link)? {
        Some(digest) => {
            let mut values = statement_values(alloc, event)?;
            values.append(&mut digest.into_vec())?;
            Ok(Some(Row::new(values)))
        }
        None => Ok(None),
    }
}

fn access_mode(alloc: Global, read_only: bool) -> Result<Row, NoMemory>
    ensures { IfOk result (λ row. row ≡ value.Text (if read_only then codes "READ ONLY" else codes "READ WRITE") ∷ []) }
{
    let mode = if read_only {
        text_value(alloc, b"READ ONLY")?
    } else {
        text_value(alloc, b"READ WRITE")?
    };
    let values = vec![in alloc; mode]?;
    Ok(Row::new(values))
}

// What the tables of a kind show beside. None where the setting lacks what it would show.
#[tactic(auto, unfolding(crate::specs::EventRows::event_tail))]
fn event_tail(
    alloc: Global,
    setting: &Setting,
    kind: TableKind,
    event: &Event,
) -> Result<Option<Row>, NoMemory>
    ensures { IfOk result (λ row. row ≡ spec.event_tail setting.now kind (fields_of event.now)) }
{
    match kind {
        TableKind::Waits => object_of(alloc, setting, event.link),
        TableKind::Stages => Ok(Some(Row::new(Vec::new(alloc)))),
        TableKind::Statements => statement_tail(alloc, setting, event),
        TableKind::Transactions => {
            let row = access_mode(alloc, event.read_only)?;
            Ok(Some(row))
        }
    }
}

// The row of an event. None where the setting lacks what it would show.
fn event_values(
    alloc: Global,
    setting: &Setting,
    kind: TableKind,
    event: &Event,
) -> Result<Option<Row>, NoMemory>
    ensures { IfOk result (λ row. row ≡ spec.event_values setting.now kind (fields_of event.now)) }
{
    match class_name(setting, event.class) {
        Some(name) => named_values(alloc, setting, kind, event, name),
        None => Ok(None),
    }
}

fn named_values(
    alloc: Global,
    setting: &Setting,
    kind: TableKind,
    event: &Event,
    name: &str,
) -> Result<Option<Row>, NoMemory>
    ensures { IfOk result (λ row. row ≡ spec.named_values setting.now kind (fields_of event.now) name.now) }
{
    match event_tail(alloc, setting, kind, event)? {
        Some(tail) => {
            let mut values = event_head(alloc, event, name)?;
            values.append(&mut tail.into_vec())?;
            Ok(Some(Row::new(values)))
        }
        None => Ok(None),
    }
}

fn event_key(alloc: Global, which: EventTable, event: &Event, place: u64) -> RowKey
    ensures { result ≡ spec_event_key which (fields_of event.now) place }
{
    match which {
        EventTable::Current | EventTable::History => {
            number_key(alloc, event.session, event.number, place)
        }
        EventTable::HistoryLong => number_key(alloc, event.ticket, 0, place),
    }
}

/// The row of an event's words at a row of the board, with its place in the order. None where the
/// words are no event's, or the setting lacks what the row would show.
#[tactic(auto, unfolding(crate::specs::PlaceTables::event_row))]
pub(crate) fn event_row(
    alloc: Global,
    setting: &Setting,
    kind: TableKind,
    which: EventTable,
    place: u64,
    words: &[u64; 16],
) -> Result<Option<Keyed>, NoMemory>
    ensures { IfOk result (λ row. row ≡ spec_event_row setting.now kind which place words.now) }
{
    match event_of(words) {
        Some(event) => keyed_event(alloc, setting, kind, which, place, &event),
        None => Ok(None),
    }
}

fn keyed_event(
    alloc: Global,
    setting: &Setting,
    kind: TableKind,
    which: EventTable,
    place: u64,
    event: &Event,
) -> Result<Option<Keyed>, NoMemory>
    ensures { IfOk result (λ row. row ≡ spec_keyed_event setting.now kind which place (fields_of event.now)) }
{
    match event_values(alloc, setting, kind, event)? {
        Some(row) => Ok(Some((event_key(alloc, which, event, place), row))),
        None => Ok(None),
    }
}
