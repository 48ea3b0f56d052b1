//! How the switch words and the administration are at first.

ghost use Rattle.std.specs.Prelude.{◌≡◌, ◌<◌, ◌≤◌, ◌-◌, map, All, IfOk, slice_get, length};
ghost use Rattle.pfs_classes.specs.Registry.{class_at};
ghost use Rattle.pfs_levels.specs.PlainStore.{word};
ghost use Rattle.pfs_setups.specs.SetupRows.{naming_of};
ghost use Rattle.pfs_admin.specs.AdministrationStates.{flags_of};
ghost use Rattle.pfs_admin.specs.OpeningState.{class_flags, table_flags, word_flags, opening_flags, cells_of};

use crate::NoMemory;
use pfs_classes::{ClassId, Classes, Setting, TableName};
use pfs_levels::Word;
use pfs_matching::Objects;
use pfs_rows::WORDS;
use pfs_setups::RowNames;
use std::alloc::Global;

/// The opening flags of the switch words: word 0 has the consumers; words 1 to 32 the threads, all off; words 33 to 95
/// the classes by id, ENABLED and TIMED; words 96 to 159 the tables by number, as the objects decide. What isn't
/// there is off.
#[tactic(auto, using(crate::proofs::OpeningState::flags_count), unfolding(crate::specs::OpeningState::opening_flags))]
pub fn opening_flags(
    alloc: Global,
    setting: &Setting,
    objects: &Objects,
) -> Result<Vec<u16>, NoMemory>
    ensures flags { IfOk result (λ flags. flags.items ≡ opening_flags setting.now objects.now) }
    ensures count { IfOk result (λ flags. length flags.items ≡ 160) }
{
    let mut flags = Vec::with_capacity(alloc, WORDS as usize)?;
    for at in 0..WORDS {
        flags.push(word_flags(setting, objects, at))?;
    }
    Ok(flags)
}

fn word_flags(setting: &Setting, objects: &Objects, at: u64) -> u16
    requires { at < 160 }
    ensures { result ≡ word_flags setting.now objects.now at }
{
    if at == 0 {
        setting.consumers
    } else if at < 33 {
        0
    } else if at < 96 {
        class_flags(&setting.classes, at - 33)
    } else {
        table_flags(setting.tables.as_slice(), objects, at - 96)
    }
}

fn class_flags(classes: &Classes, id: u64) -> u16
    requires { id < 63 }
    ensures { result ≡ class_flags (class_at classes.now id) }
{
    if id < classes.count() || id == 62 {
        let class = classes.class(ClassId(id));
        both_flags(class.enabled, class.timed)
    } else {
        0
    }
}

fn table_flags(tables: &[TableName], objects: &Objects, number: u64) -> u16
    ensures { result ≡ table_flags objects.now (slice_get tables.now number) }
{
    match tables.get(number as usize) {
        Some(table) => {
            let (enabled, timed) = objects.decide_object(
                table.schema.as_bytes(),
                table.name.as_bytes(),
            );
            both_flags(enabled, timed)
        }
        None => 0,
    }
}

/// Two flags in the two lowest bits.
pub(crate) fn both_flags(first: bool, second: bool) -> u16
    ensures { result ≡ flags_of (first, second) }
{
    let low = if first { 1 } else { 0 };
    let high = if second { 2 } else { 0 };
    low + high
}

/// Words with these flags, at version 0.
pub(crate) fn words_of(alloc: Global, flags: &[u16]) -> Result<Vec<Word>, NoMemory>
    ensures { IfOk result (λ words. words.items ≡ map (word 0) flags.now) }
{
    let mut words = Vec::with_capacity(alloc, flags.len())?;
    for flag in flags {
        words.push(Word {
            version: 0,
            flags: *flag,
        })?;
    }
    Ok(words)
}

/// The cells of the registered classes, ascending.
pub(crate) fn cells_of(alloc: Global, classes: &Classes) -> Result<Vec<u64>, NoMemory>
    ensures cells { IfOk result (λ cells. cells.items ≡ cells_of classes.now) }
    ensures small { All (λ cell. cell < 64) (cells_of classes.now) }
    ensures few { length (cells_of classes.now) ≤ 64 }
{
    let count = class_count(classes);
    let mut cells = Vec::with_capacity(alloc, 64)?;
    for id in 0..count {
        cells.push(id)?;
    }
    cells.push(62)?;
    cells.push(63)?;
    Ok(cells)
}

// How many classes there are beside `transaction`, whose cells are 62 and 63.
fn class_count(classes: &Classes) -> u64
    ensures number { result ≡ length classes.now.classes }
    ensures small { All (λ cell. cell < 64) (cells_of classes.now) }
    ensures few { length (cells_of classes.now) ≤ 64 }
{
    classes.count()
}

/// What the rows of the setup tables are named by.
#[tactic(auto, using(crate::proofs::OpeningState::fixed_names))]
pub(crate) fn names_of(alloc: Global, setting: &Setting) -> Result<RowNames, NoMemory>
    ensures names { IfOk result (λ s. s.names ≡ setting.now.names) }
    ensures classes { IfOk result (λ s. s.classes ≡ (naming_of setting.now).classes) }
    ensures tables { IfOk result (λ s. s.tables ≡ setting.now.tables) }
{
    RowNames::open(alloc, setting)
}
