//! The rows of a summary, put to their places in its order.

ghost use Rattle.std.specs.Prelude.{◌≡◌, ◌<◌, ◌+◌, ◌*◌, ◌++◌, ℕ, Bool, not, length, map, IfOk, OnOk, List, [], slice_index_or};
ghost use Rattle.std.specs.List.{flat_map, range_with_len};
ghost use Rattle.pfs_text.specs.declared.values.RowValue.{RowValue};
ghost use Rattle.pfs_summaries.specs.declared.heads.RowKey.{RowKey};
ghost use Rattle.pfs_classes.specs.Registry.{class_at, text_of};
ghost use Rattle.std.specs.BTreeMap.{insert_entry};
ghost use Rattle.pfs_summaries.specs.Heads.{head_of, places_of, row_cmp};
ghost use Rattle.pfs_summaries.specs.RowValues.{count_of};
ghost use Rattle.pfs_summaries.specs.ReadingSteps.{tally_in, none_of};
ghost use Rattle.pfs_summaries.specs.Summaries.{class_text, numbers_of, is_skipped, is_listed, row_values, class_rows, head_rows, place_rows, put_rows, ordered_rows, key_at};

use crate::NoMemory;
use crate::heads::{Head, RowKey, head_of, places_of, put_value};
use crate::numbers::Numbers;
use crate::tallies::Tally;
use pfs_classes::{Class, ClassId, Setting, laws};
use pfs_containers::Content;
use pfs_readsets::is_class_of;
use pfs_rows::{READ_ONLY_CELL, READ_WRITE_CELL, SummaryTable, TableKind};
use pfs_text::{Row, RowValue, Text};
use std::alloc::Global;
use std::collections::BTreeMap;

// Class ids are below this one.
const IDS: u64 = 63;

// Whose rows: the table's kind of events, by what it counts them, and the place of the board.
#[derive(Clone, Copy)]
struct RowOwner {
    kind: TableKind,
    which: SummaryTable,
    place: u64,
}

// The class with this id, where there is one.
fn class_at(setting: &Setting, id: u64) -> Option<Class>
    ensures { result ≡ class_at setting.now.classes id }
{
    if id < setting.classes.count() || id == READ_WRITE_CELL {
        Some(setting.classes.class(ClassId(id)))
    } else {
        None
    }
}

// The name of the class with this id, and the empty text where there is none.
fn class_text(alloc: Global, setting: &Setting, id: u64) -> Result<Text, NoMemory>
    ensures { IfOk result (λ text. text ≡ class_text setting.now.names (class_at setting.now.classes id)) }
{
    laws::known_names();
    match class_at(setting, id) {
        Some(class) => {
            let name = setting.names.get(class.name);
            Text::from_slice(alloc, name.as_bytes())
        }
        None => Ok(Text::new(Vec::new(alloc))),
    }
}

// The tally of a cell's number under a key.
fn tally_in(tallies: &[Tally], key: u64, cell: u64) -> Tally
    requires length { length tallies.now ≡ 2048 }
    requires key { key < 32 }
    requires cell { cell < 64 }
    ensures { result ≡ tally_in tallies.now key cell }
{
    tallies[(64 * key + cell) as usize]
}

fn numbers_of(kind: TableKind, tallies: &[Tally], key: u64, id: u64) -> Numbers
    requires length { length tallies.now ≡ 2048 }
    requires key { key < 32 }
    requires class { id < 63 }
    ensures { result ≡ numbers_of kind (tally_in tallies.now key) id }
{
    match kind {
        TableKind::Waits | TableKind::Stages => Numbers::Times(tally_in(tallies, key, id).stat),
        TableKind::Statements => Numbers::Statements(tally_in(tallies, key, id).stat),
        TableKind::Transactions => Numbers::Transactions {
            read_write: tally_in(tallies, key, READ_WRITE_CELL).stat,
            read_only: tally_in(tallies, key, READ_ONLY_CELL).stat,
        },
    }
}

// Whether a cell of the row was busy.
fn is_skipped(kind: TableKind, tallies: &[Tally], key: u64, id: u64) -> bool
    requires length { length tallies.now ≡ 2048 }
    requires key { key < 32 }
    requires class { id < 63 }
    ensures { result ≡ is_skipped kind (tally_in tallies.now key) id }
{
    match kind {
        TableKind::Transactions => {
            tally_in(tallies, key, READ_WRITE_CELL).busy
                || tally_in(tallies, key, READ_ONLY_CELL).busy
        }
        _ => tally_in(tallies, key, id).busy,
    }
}

// Whether the row stands.
fn is_listed(setting: &Setting, owner: RowOwner, head: &Head, tallies: &[Tally], id: u64) -> bool
    requires length { length tallies.now ≡ 2048 }
    requires key { owner.place < 32 }
    requires class { id < 63 }
    ensures { result ≡ is_listed setting.now owner.kind head.now (tally_in tallies.now owner.place) id }
{
    is_class_of(owner.kind, class_at(setting, id))
        && !is_skipped(owner.kind, tallies, owner.place, id)
        && (head.stands || numbers_of(owner.kind, tallies, owner.place, id).count() != 0)
}

// The values of a class's row.
#[tactic(auto, unfolding(crate::specs::Summaries::row_values))]
fn row_values(
    alloc: Global,
    setting: &Setting,
    owner: RowOwner,
    head: &Head,
    tallies: &[Tally],
    id: u64,
) -> Result<Vec<RowValue>, NoMemory>
    requires length { length tallies.now ≡ 2048 }
    requires key { owner.place < 32 }
    requires class { id < 63 }
    ensures { IfOk result (λ values. values.items
        ≡ row_values setting.now owner.kind owner.which head.now (tally_in tallies.now owner.place) id) }
{
    let mut values = Vec::new(alloc);
    head.put(owner.which, &mut values)?;
    let name = class_text(alloc, setting, id)?;
    put_value(&mut values, RowValue::Text(name))?;
    numbers_of(owner.kind, tallies, owner.place, id).put(&mut values)?;
    Ok(values)
}

// Puts one row to its place.
fn insert_row(rows: &mut BTreeMap<RowKey, Row>, key: RowKey, row: Row) -> Result<(), NoMemory>
    ensures { OnOk result (rows.new.entries ≡ insert_entry row_cmp rows.old.entries key row) }
{
    rows.insert(key, row)?;
    Ok(())
}

// Puts the row of a class, where it stands.
#[tactic(auto, unfolding(crate::specs::Summaries::class_rows))]
fn put_class(
    alloc: Global,
    setting: &Setting,
    owner: RowOwner,
    tallies: &[Tally],
    head: &Head,
    id: u64,
    rows: &mut BTreeMap<RowKey, Row>,
) -> Result<(), NoMemory>
    requires length { length tallies.now ≡ 2048 }
    requires key { owner.place < 32 }
    requires class { id < 63 }
    ensures { OnOk result (rows.new.entries
        ≡ put_rows rows.old.entries
        (class_rows setting.now owner.kind owner.which owner.place (tally_in tallies.now owner.place) head.now id)) }
{
    if !is_listed(setting, owner, head, tallies, id) {
        return Ok(());
    }
    let values = row_values(alloc, setting, owner, head, tallies, id)?;
    let key = head.row_key(owner.place, id)?;
    insert_row(rows, key, Row::new(values))
}

// Puts the rows of all classes under a head.
fn put_classes(
    alloc: Global,
    setting: &Setting,
    owner: RowOwner,
    tallies: &[Tally],
    head: &Head,
    rows: &mut BTreeMap<RowKey, Row>,
) -> Result<(), NoMemory>
    requires length { length tallies.now ≡ 2048 }
    requires key { owner.place < 32 }
    ensures { OnOk result (rows.new.entries
        ≡ put_rows rows.old.entries
        (flat_map
        (class_rows setting.now owner.kind owner.which owner.place (tally_in tallies.now owner.place) head.now)
        (range_with_len 0 63))) }
{
    for id in 0..IDS {
        match put_class(alloc, setting, owner, tallies, head, id, rows) {
            Ok(()) => {}
            Err(fault) => return Err(fault),
        }
    }
    Ok(())
}

// Puts the rows of a place.
fn put_place(
    alloc: Global,
    setting: &Setting,
    owner: RowOwner,
    infos: &[Option<Content>],
    tallies: &[Tally],
    rows: &mut BTreeMap<RowKey, Row>,
) -> Result<(), NoMemory>
    requires length { length tallies.now ≡ 2048 }
    requires key { owner.place < 32 }
    ensures { OnOk result (rows.new.entries
        ≡ put_rows rows.old.entries
        (place_rows setting.now owner.kind owner.which infos.now (tally_in tallies.now) owner.place)) }
{
    match head_of(alloc, owner.which, &setting.names, infos, owner.place)? {
        Some(head) => put_classes(alloc, setting, owner, tallies, &head, rows),
        None => Ok(()),
    }
}

// The rows of all places, in their order.
#[tactic(auto, unfolding(crate::specs::Summaries::ordered_rows))]
fn put_places(
    alloc: Global,
    setting: &Setting,
    kind: TableKind,
    which: SummaryTable,
    infos: &[Option<Content>],
    tallies: &[Tally],
) -> Result<BTreeMap<RowKey, Row>, NoMemory>
    requires { length tallies.now ≡ 2048 }
    ensures { IfOk result (λ rows. rows.entries
        ≡ ordered_rows setting.now kind which infos.now (tally_in tallies.now)) }
{
    let mut rows = BTreeMap::new(alloc);
    for place in 0..places_of(which) {
        let owner = RowOwner { kind, which, place };
        match put_place(alloc, setting, owner, infos, tallies, &mut rows) {
            Ok(()) => {}
            Err(fault) => return Err(fault),
        }
    }
    Ok(rows)
}

/// The rows of a summary, in order.
pub fn ordered_rows(
    alloc: Global,
    setting: &Setting,
    kind: TableKind,
    which: SummaryTable,
    infos: &[Option<Content>],
    tallies: &[Tally],
) -> Result<Vec<Row>, NoMemory>
    requires { length tallies.now ≡ 2048 }
    ensures { IfOk result (λ rows. rows.items
        ≡ map (λ (row : RowKey × List RowValue). row.1)
        (ordered_rows setting.now kind which infos.now (tally_in tallies.now))) }
{
    let rows = put_places(alloc, setting, kind, which, infos, tallies)?;
    rows.into_values().collect(alloc)
}
