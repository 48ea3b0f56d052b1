//! What a statement on the setup tables writes: the switch words whose flags change.

ghost use Rattle.std.specs.Prelude.{◌≡◌, ◌<◌, ◌≤◌, ◌+◌, ◌^◌, ℕ, Some, length, map, take, Result};
ghost use Rattle.pfs_levels.specs.Views.{Used, lent_as};
ghost use Rattle.pfs_exec.specs.NewRows.{table_of};
ghost use Rattle.pfs_levels.specs.Moves.{Did};
ghost use Rattle.pfs_setups.specs.Deletes as deletes;
ghost use Rattle.pfs_setups.specs.Inserts as inserts;
ghost use Rattle.pfs_setups.specs.Updates as updates;
ghost use Rattle.pfs_admin.specs.WordChanges.{flags_changed, words_changed};
ghost use Rattle.pfs_admin.specs.SetupStatements.{first_word, flags_in, word_count};
ghost use Rattle.pfs_admin.specs.Works.{word_at, flagging_calls, flagging_entries};

use crate::signs::flag;
use pfs_containers::Containers;
use pfs_exec::{NewRow, Update};
use pfs_levels::{Hold, Log, Word};
use pfs_matching::Objects;
use pfs_rows::Table;
use pfs_setups::{RowNames, flags_behind, flags_by_answer};

/// The flags of all words.
pub(crate) fn flags_of(words: &[Word]) -> [u16; 160]
    requires wide { length words.now ≡ 160 }
    ensures { result ≡ map flags_in words.now }
{
    let mut flags = [0; 160];
    for at in 0..160 {
        flags[at] = words[at].flags;
    }
    flags
}

/// The table that a row is of.
pub(crate) fn table_of(row: &NewRow) -> Table
    ensures { result ≡ table_of row.now }
{
    match row {
        NewRow::Actor(_) => Table::SetupActors,
        NewRow::Object(_) => Table::SetupObjects,
    }
}

// The first of the words that a table's rows have flags in.
fn first_word(table: Table) -> u64
    ensures first { result ≡ first_word table }
    ensures within { result + word_count table ≤ 160 }
{
    match table {
        Table::Threads => 1,
        Table::SetupInstruments => 33,
        Table::SetupObjects => 96,
        _ => 0,
    }
}

// How many these are.
fn word_count(table: Table) -> u64
    ensures { result ≡ word_count table }
{
    match table {
        Table::SetupConsumers => 1,
        Table::Threads => 32,
        Table::SetupInstruments => 63,
        Table::SetupObjects => 64,
        _ => 0,
    }
}

/// Sets the words that an UPDATE changes, ascending, behind its change of the rows.
pub(crate) fn set_updated<H: Hold>(
    rows: &mut H,
    names: &RowNames,
    containers: &Containers,
    objects: &Objects,
    words: &mut [Word],
    what: &Update,
    log: &mut Log,
)
    requires wide { length words.old ≡ 160 }
    requires lent { (H.seen rows.old).words ≡ Some words.old }
    requires early { (at : ℕ) → (word_at words.old at).version + 1 < 2 ^ 48 }
    requires room { word_count what.now.table ≤ log.old.room }
    ensures did { Did (flagging_calls words.old (flags_changed
        (updates.flags_behind names.now containers.now.now.places.threads objects.now what.now) words.old
        (first_word what.now.table) (word_count what.now.table)))
        (flagging_entries words.old (flags_changed
        (updates.flags_behind names.now containers.now.now.places.threads objects.now what.now) words.old
        (first_word what.now.table) (word_count what.now.table))) log.old log.new (H.seen rows.old).reached
        (H.seen rows.new).reached }
    ensures mine { words.new ≡ words_changed
        (updates.flags_behind names.now containers.now.now.places.threads objects.now what.now) words.old
        (first_word what.now.table) (word_count what.now.table) }
    ensures used { Used 0 0 (word_count what.now.table) (lent_as words.new (H.seen rows.old)) (H.seen rows.new) log.old
        log.new }
{
    let first = first_word(what.table);
    for at in 0..word_count(what.table) {
        let word = first + at;
        let before = words[word as usize].flags;
        let flags = flags_behind(names, containers, objects, what, word, before);
        flag(rows, words, word, flags, log);
    }
}

/// Sets the words that a DELETE from a table changes, ascending, behind its change of the rows.
pub(crate) fn set_deleted<H: Hold>(
    rows: &mut H,
    names: &RowNames,
    objects: &Objects,
    words: &mut [Word],
    table: Table,
    log: &mut Log,
)
    requires wide { length words.old ≡ 160 }
    requires lent { (H.seen rows.old).words ≡ Some words.old }
    requires early { (at : ℕ) → (word_at words.old at).version + 1 < 2 ^ 48 }
    requires room { word_count table ≤ log.old.room }
    ensures did { Did (flagging_calls words.old (flags_changed (deletes.flags_by_rows names.now objects.now table)
        words.old (first_word table) (word_count table)))
        (flagging_entries words.old (flags_changed (deletes.flags_by_rows names.now objects.now table) words.old
        (first_word table) (word_count table))) log.old log.new (H.seen rows.old).reached (H.seen rows.new).reached }
    ensures mine { words.new ≡ words_changed (deletes.flags_by_rows names.now objects.now table) words.old
        (first_word table) (word_count table) }
    ensures used { Used 0 0 (word_count table) (lent_as words.new (H.seen rows.old)) (H.seen rows.new) log.old log.new }
{
    // As an INSERT that adds a row: all tables are decided again.
    set_inserted(rows, names, objects, words, table, &Ok(1), log);
}

/// Sets the words that an INSERT into a table with this answer changes, ascending, behind its change of the rows.
pub(crate) fn set_inserted<H: Hold>(
    rows: &mut H,
    names: &RowNames,
    objects: &Objects,
    words: &mut [Word],
    table: Table,
    answer: &Result<u64, u16>,
    log: &mut Log,
)
    requires wide { length words.old ≡ 160 }
    requires lent { (H.seen rows.old).words ≡ Some words.old }
    requires early { (at : ℕ) → (word_at words.old at).version + 1 < 2 ^ 48 }
    requires room { word_count table ≤ log.old.room }
    ensures did { Did (flagging_calls words.old (flags_changed (inserts.flags_by_answer names.now objects.now table
        answer.now) words.old (first_word table) (word_count table))) (flagging_entries words.old
        (flags_changed (inserts.flags_by_answer names.now objects.now table answer.now) words.old (first_word table)
        (word_count table))) log.old log.new (H.seen rows.old).reached (H.seen rows.new).reached }
    ensures mine { words.new ≡ words_changed (inserts.flags_by_answer names.now objects.now table answer.now)
        words.old (first_word table) (word_count table) }
    ensures used { Used 0 0 (word_count table) (lent_as words.new (H.seen rows.old)) (H.seen rows.new) log.old log.new }
{
    let first = first_word(table);
    for at in 0..word_count(table) {
        let word = first + at;
        let before = words[word as usize].flags;
        let flags = flags_by_answer(names, objects, table, answer, word, before);
        flag(rows, words, word, flags, log);
    }
}
