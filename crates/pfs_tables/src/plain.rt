//! What the tables show whose rows each show one place of the board or one switch word.

ghost use Rattle.std.specs.Prelude.{◌≡◌, [], ◌∷◌, ◌==◌, IfOk, OnOk, List, map, Some, None};
ghost use Rattle.std.specs.Option.{option_to_list};
ghost use Rattle.pfs_rows.specs.Rows.{place_at};
ghost use Rattle.pfs_tables.specs.TableOrders.{put_rows, Keyed as KeyedRow};
ghost use Rattle.pfs_tables.specs.PlaceTables as spec;

use crate::NoMemory;
use crate::events::event_row;
use crate::orders::{Keyed, RowKey, Rows, put};
use crate::rows::{account_row, class_row, consumer_row, flags_at, name_row, thread_row};
use pfs_classes::Setting;
use pfs_consumers::Consumer;
use pfs_containers::{AccountInfo, NameInfo, ThreadInfo};
use pfs_readsets::{has_long, has_ring};
use pfs_rows::{Place, Reading, Seen, Table, place_of};
use pfs_text::{Row, Rowset};
use std::alloc::Global;
use std::collections::BTreeMap;

fn is_event_place(table: Table, place: Place) -> bool
    ensures { result ≡ spec.is_event_place table place }
{
    match place {
        Place::Ring { place, .. } => has_ring(table, place),
        Place::Long { kind, .. } => has_long(table, kind),
        _ => false,
    }
}

// Whether a place may give a row of the table.
fn may_show(table: Table, place: Place) -> bool
    ensures { result ≡ spec.may_show table place }
{
    match table {
        Table::Threads => matches!(place, Place::ThreadInfo(_)),
        Table::Accounts => matches!(place, Place::AccountInfo(_)),
        Table::Users => matches!(place, Place::UserInfo(_)),
        Table::Hosts => matches!(place, Place::HostInfo(_)),
        Table::Events(_, _) => is_event_place(table, place),
        _ => false,
    }
}

fn may_show_row(table: Table, row: u64) -> bool
    ensures { result ≡ spec.on_place (spec.may_show table) (place_at row) }
{
    match place_of(row) {
        Some(place) => may_show(table, place),
        None => false,
    }
}

// The row of a place that was found Whole.
#[tactic(auto, unfolding(crate::specs::PlaceTables::words_row))]
fn words_row(
    alloc: Global,
    setting: &Setting,
    table: Table,
    readings: &[Reading],
    row: u64,
    words: &[u64; 16],
) -> Result<Option<Keyed>, NoMemory>
    ensures { IfOk result (λ o. o ≡ spec.words_row setting.now table readings.now row words.now) }
{
    match table {
        Table::Threads => {
            let flags = flags_at(readings, row);
            thread_row(alloc, setting, row, flags, &ThreadInfo::of_content(words))
        }
        Table::Accounts => account_row(alloc, setting, row, &AccountInfo::of_content(words)),
        Table::Users => name_row(alloc, setting, row, &NameInfo::of_content(words)),
        Table::Hosts => name_row(alloc, setting, row, &NameInfo::of_content(words)),
        Table::Events(kind, which) => event_row(alloc, setting, kind, which, row, words),
        _ => Ok(None),
    }
}

// The row of a reading of the board: only what was found Whole gives one.
#[tactic(auto, unfolding(crate::specs::PlaceTables::slot_row))]
fn slot_row(
    alloc: Global,
    setting: &Setting,
    table: Table,
    readings: &[Reading],
    row: u64,
    seen: &Seen,
) -> Result<Option<Keyed>, NoMemory>
    ensures { IfOk result (λ o. o ≡ spec.slot_row setting.now table readings.now row seen.now) }
{
    match seen {
        Seen::Whole { content, .. } => {
            if may_show_row(table, row) {
                words_row(alloc, setting, table, readings, row, content)
            } else {
                Ok(None)
            }
        }
        Seen::Free { .. } | Seen::Busy { .. } => Ok(None),
    }
}

fn put_option(rows: &mut Rows, row: Option<Keyed>) -> Result<(), NoMemory>
    ensures { OnOk result (rows.new.entries ≡ put_rows rows.old.entries (option_to_list row)) }
{
    match row {
        Some(row) => put(rows, row),
        None => Ok(()),
    }
}

fn put_each(
    alloc: Global,
    rows: &mut Rows,
    flags: u16,
    consumers: &[Consumer],
) -> Result<(), NoMemory>
    ensures { OnOk result (rows.new.entries ≡ put_rows rows.old.entries (map (spec.consumer_row flags) consumers.now)) }
{
    for consumer in consumers {
        let row = consumer_row(alloc, flags, *consumer)?;
        put(rows, row)?;
    }
    Ok(())
}

#[tactic(auto, unfolding(crate::specs::PlaceTables::consumer_rows))]
fn put_consumers(alloc: Global, rows: &mut Rows, word: u64, flags: u16) -> Result<(), NoMemory>
    ensures { OnOk result (rows.new.entries ≡ put_rows rows.old.entries (spec.consumer_rows word flags)) }
{
    if word == 0 {
        put_each(alloc, rows, flags, &Consumer::ALL)
    } else {
        Ok(())
    }
}

fn put_word(
    alloc: Global,
    setting: &Setting,
    table: Table,
    rows: &mut Rows,
    word: u64,
    flags: u16,
) -> Result<(), NoMemory>
    ensures { OnOk result (rows.new.entries ≡ put_rows rows.old.entries (spec.word_rows setting.now table word flags)) }
{
    match table {
        Table::SetupInstruments => {
            let row = class_row(alloc, setting, word, flags)?;
            put_option(rows, row)
        }
        Table::SetupConsumers => put_consumers(alloc, rows, word, flags),
        _ => Ok(()),
    }
}

#[tactic(auto, unfolding(crate::specs::PlaceTables::slot_row))]
fn put_reading(
    alloc: Global,
    setting: &Setting,
    table: Table,
    readings: &[Reading],
    rows: &mut Rows,
    reading: &Reading,
) -> Result<(), NoMemory>
    ensures { OnOk result (rows.new.entries
        ≡ put_rows rows.old.entries (spec.rows_of setting.now table readings.now reading.now)) }
{
    match reading {
        // Most places of the rings are free: nothing is built for them.
        Reading::Slot {
            seen: Seen::Free { .. },
            ..
        } => Ok(()),
        Reading::Slot { row, seen } => {
            let row = slot_row(alloc, setting, table, readings, *row, seen)?;
            put_option(rows, row)
        }
        Reading::Word { word, flags, .. } => put_word(alloc, setting, table, rows, *word, *flags),
    }
}

fn in_order(alloc: Global, rows: Rows) -> Result<Vec<Row>, NoMemory>
    ensures { IfOk result (λ listed. listed.items ≡ map (λ (row : KeyedRow). row.1) rows.entries) }
{
    rows.into_values().collect(alloc)
}

/// What the table shows by these readings, in the order of its key; rows with equal keys stand in
/// the order of their rows of the board. Only places of the table that were found Whole give a row,
/// and only where the setting has all that the row shows. It knows the tables whose rows each show
/// one place or one switch word: the setup tables of classes and consumers, threads, accounts,
/// users, hosts and the event tables. Of others it shows nothing.
#[tactic(auto, unfolding(crate::specs::PlaceTables::plain_rows_of))]
pub fn plain_rows(
    alloc: Global,
    setting: &Setting,
    table: Table,
    readings: &[Reading],
) -> Result<Rowset, NoMemory>
    ensures { IfOk result (λ rows. rows ≡ spec.plain_rows_of setting.now table readings.now) }
{
    let mut rows: BTreeMap<RowKey, Row> = BTreeMap::new(alloc);
    for reading in readings {
        put_reading(alloc, setting, table, readings, &mut rows, reading)?;
    }
    let listed = in_order(alloc, rows)?;
    Ok(Rowset::new(listed))
}
