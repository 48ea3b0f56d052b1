//! The flags of a switch word behind a change.

ghost use Rattle.std.specs.Prelude.{◌≡◌, ◌<◌, ◌-◌, ◌==◌, fold, take, drop, slice_get, option_copied};
ghost use Rattle.std.specs.Option.{option_map_or};
ghost use Rattle.pfs_consumers.specs.Tree.{with_flag};
ghost use Rattle.pfs_setups.specs.Deletes as deletes;
ghost use Rattle.pfs_setups.specs.Inserts as inserts;
ghost use Rattle.pfs_setups.specs.Updates as updates;

use crate::RowNames;
use crate::meeting::{consumer_meets, word_meets};
use pfs_classes::TableName;
use pfs_consumers::{Consumer, Flags};
use pfs_containers::Containers;
use pfs_exec::Update;
use pfs_matching::{FlagChange, Objects};
use pfs_rows::Table;
use pfs_text::Test;

/// The flags of a word behind an UPDATE, by its flags before and by the rows of `setup_objects` as they stand behind
/// it. The word is to be set exactly where they differ from those before.
#[tactic(auto, unfolding(crate::specs::Updates::flags_on))]
pub fn flags_behind(
    names: &RowNames,
    containers: &Containers,
    objects: &Objects,
    update: &Update,
    word: u64,
    flags: u16,
) -> u16
    ensures { result
        ≡ updates.flags_behind names.now containers.now.now.places.threads objects.now update.now word flags }
{
    let tests = update.tests.as_slice();
    match update.table {
        Table::SetupConsumers => consumer_word(tests, update.change.first, word, flags),
        Table::SetupInstruments | Table::Threads => {
            let met = word_meets(names, containers, update.table, tests, word, flags);
            changed_if(&update.change, flags, met)
        }
        Table::SetupObjects => redecided(names, objects, word, flags),
        _ => flags,
    }
}

/// The flags of a word behind a DELETE from a table, by its flags before and by the rows of `setup_objects` as they
/// stand behind it: all tables of the setting are decided again.
pub fn flags_by_rows(
    names: &RowNames,
    objects: &Objects,
    table: Table,
    word: u64,
    flags: u16,
) -> u16
    ensures { result ≡ deletes.flags_by_rows names.now objects.now table word flags }
{
    match table {
        Table::SetupObjects => redecided(names, objects, word, flags),
        _ => flags,
    }
}

/// The flags of a word behind an INSERT into a table with this answer, by its flags before and by the rows of
/// `setup_objects` as they stand behind it. An error changes none.
#[tactic(auto, unfolding(crate::specs::Inserts::flags_by_answer))]
pub fn flags_by_answer(
    names: &RowNames,
    objects: &Objects,
    table: Table,
    answer: &Result<u64, u16>,
    word: u64,
    flags: u16,
) -> u16
    ensures { result ≡ inserts.flags_by_answer names.now objects.now table answer.now word flags }
{
    match answer {
        Ok(_) => flags_by_rows(names, objects, table, word, flags),
        Err(_) => flags,
    }
}

fn consumer_word(tests: &[Test], on: Option<bool>, word: u64, flags: u16) -> u16
    ensures { result ≡ updates.consumer_word tests.now on word flags }
{
    if word == 0 {
        consumers_behind(tests, on, flags)
    } else {
        flags
    }
}

#[tactic(auto, unfolding(crate::specs::Updates::consumers_behind))]
fn consumers_behind(tests: &[Test], on: Option<bool>, flags: u16) -> u16
    ensures { result ≡ updates.consumers_behind tests.now on flags }
{
    each_behind(tests, on, flags, &Consumer::ALL)
}

// Which consumers are met goes by their flags before the update.
fn each_behind(tests: &[Test], on: Option<bool>, before: u16, consumers: &[Consumer]) -> u16
    ensures { result ≡ fold (updates.consumer_step tests.now on before) before consumers.now }
{
    let mut flags = Flags(before);
    for consumer in consumers {
        step_consumer(&mut flags, tests, on, before, *consumer);
    }
    flags.0
}

fn step_consumer(
    flags: &mut Flags,
    tests: &[Test],
    on: Option<bool>,
    before: u16,
    consumer: Consumer,
)
    ensures { flags.new.0 ≡ updates.consumer_step tests.now on before flags.old.0 consumer }
{
    if consumer_meets(tests, before, consumer) {
        set_consumer(flags, on, consumer);
    }
}

fn set_consumer(flags: &mut Flags, on: Option<bool>, consumer: Consumer)
    ensures { flags.new.0 ≡ updates.with_consumer on flags.old.0 consumer }
{
    if let Some(on) = on {
        flags.set(consumer, on);
    }
}

fn changed_if(change: &FlagChange, flags: u16, met: bool) -> u16
    ensures { result ≡ updates.changed_if change.now flags met }
{
    if met {
        with_bit(1, with_bit(0, flags, change.first), change.second)
    } else {
        flags
    }
}

// The flags with one of them as asked, and each other bit as it was.
fn with_bit(bit: u32, flags: u16, on: Option<bool>) -> u16
    requires { bit < 16 }
    ensures { result ≡ updates.with_bit bit flags on }
{
    let mask = 1 << bit;
    match on {
        Some(true) => flags | mask,
        Some(false) => flags & !mask,
        None => flags,
    }
}

// The flags of a word where every table of the setting is decided by these rows.
#[tactic(auto, unfolding(crate::specs::Updates::redecided))]
fn redecided(names: &RowNames, objects: &Objects, word: u64, flags: u16) -> u16
    ensures { result ≡ updates.redecided names.now objects.now word flags }
{
    match table_of_word(names, word) {
        Some(table) => flags_decided(objects, table),
        None => flags,
    }
}

fn table_of_word(names: &RowNames, word: u64) -> Option<&TableName>
    ensures { option_copied result ≡ updates.table_of_word names.now word }
{
    if 96 <= word {
        names.table(word - 96)
    } else {
        None
    }
}

fn flags_decided(objects: &Objects, table: &TableName) -> u16
    ensures { result ≡ updates.flags_decided objects.now table.now }
{
    let (enabled, timed) = objects.decide_object(table.schema.as_bytes(), table.name.as_bytes());
    let low = if enabled { 1 } else { 0 };
    let high = if timed { 2 } else { 0 };
    low + high
}
