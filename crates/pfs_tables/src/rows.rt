//! The rows of threads, accounts, users, hosts, classes and consumers.

ghost use Rattle.std.specs.Prelude.{◌≡◌, ◌<◌, ◌∷◌, [], ◌==◌, ◌-◌, ℕ, IfOk, OnOk, List, Some, None, find, slice_get};
ghost use Rattle.std.specs.Option.{option_map};
ghost use Rattle.std.specs.Int.{bit_at};
ghost use Rattle.pfs_text.specs.declared.values.RowValue.TheVariants as value;
ghost use Rattle.pfs_tables.specs.PlaceTables as spec;
ghost use Rattle.pfs_tables.specs.TableOrders.{name_key as spec_name_key};

use crate::NoMemory;
use crate::events::{class_name, name_of, text_value};
use crate::orders::{Keyed, name_key, number_key};
use pfs_classes::Setting;
use pfs_consumers::{Consumer, Flags};
use pfs_containers::{AccountInfo, NameInfo, ThreadInfo};
use pfs_rows::Reading;
use pfs_text::{Row, RowValue, Text};
use std::alloc::Global;

fn flag_value(alloc: Global, flag: bool) -> Result<RowValue, NoMemory>
    ensures { IfOk result (λ v. v ≡ spec.flag_value flag) }
{
    if flag {
        text_value(alloc, b"YES")
    } else {
        text_value(alloc, b"NO")
    }
}

fn bit_value(alloc: Global, flags: u16, bit: u32) -> Result<RowValue, NoMemory>
    requires { bit < 16 }
    ensures { IfOk result (λ v. v ≡ spec.bit_value flags bit) }
{
    flag_value(alloc, (flags >> bit) & 1 == 1)
}

fn loads(reading: &Reading, word: u64) -> bool
    ensures { result ≡ spec.loads word reading.now }
{
    match reading {
        Reading::Slot { .. } => false,
        Reading::Word { word: other, .. } => *other == word,
    }
}

fn flags_in(reading: &Reading) -> u16
    ensures { result ≡ spec.flags_in reading.now }
{
    match reading {
        Reading::Slot { .. } => 0,
        Reading::Word { flags, .. } => *flags,
    }
}

/// The flags that the first loading of a word found, 0 where it wasn't loaded.
pub(crate) fn flags_at(readings: &[Reading], word: u64) -> u16
    ensures { result ≡ spec.flags_at readings.now word }
{
    for reading in readings {
        if loads(reading, word) {
            return flags_in(reading);
        }
    }
    0
}

fn thread_values(
    alloc: Global,
    info: &ThreadInfo,
    flags: u16,
    user: &str,
    host: &str,
) -> Result<Row, NoMemory>
    ensures { IfOk result (λ row. row ≡ spec.thread_values info.now flags user.now host.now) }
{
    let user = text_value(alloc, user.as_bytes())?;
    let host = text_value(alloc, host.as_bytes())?;
    let instrumented = bit_value(alloc, flags, 0)?;
    let history = bit_value(alloc, flags, 1)?;
    let values = vec![in alloc;
        RowValue::Number(info.session),
        user,
        host,
        instrumented,
        history,
    ]?;
    Ok(Row::new(values))
}

/// A thread's row, with its place in the order. None where the setting doesn't have its names.
#[tactic(auto, unfolding(crate::specs::PlaceTables::thread_row))]
pub(crate) fn thread_row(
    alloc: Global,
    setting: &Setting,
    place: u64,
    flags: u16,
    info: &ThreadInfo,
) -> Result<Option<Keyed>, NoMemory>
    ensures { IfOk result (λ row. row ≡ spec.thread_row setting.now place flags info.now) }
{
    match name_of(&setting.names, info.user_name.0) {
        Some(user) => match name_of(&setting.names, info.host_name.0) {
            Some(host) => {
                let row = thread_values(alloc, info, flags, user, host)?;
                Ok(Some((number_key(alloc, info.session, 0, place), row)))
            }
            None => Ok(None),
        },
        None => Ok(None),
    }
}

fn account_values(
    alloc: Global,
    info: &AccountInfo,
    user: &str,
    host: &str,
) -> Result<Row, NoMemory>
    ensures { IfOk result (λ row. row ≡ spec.account_values info.now user.now host.now) }
{
    let user = text_value(alloc, user.as_bytes())?;
    let host = text_value(alloc, host.as_bytes())?;
    let values = vec![in alloc;
        user,
        host,
        RowValue::Number(info.current),
        RowValue::Number(info.total),
    ]?;
    Ok(Row::new(values))
}

fn named_account(
    alloc: Global,
    place: u64,
    info: &AccountInfo,
    user: &str,
    host: &str,
) -> Result<Keyed, NoMemory>
    ensures { IfOk result (λ row. row ≡ (
      spec_name_key user.now host.now place,
      spec.account_values info.now user.now host.now,
    )) }
{
    let row = account_values(alloc, info, user, host)?;
    let user = Text::from_slice(alloc, user.as_bytes())?;
    let host = Text::from_slice(alloc, host.as_bytes())?;
    Ok((name_key(user, host, place), row))
}

/// An account's row, with its place in the order. None where the setting doesn't have its names.
#[tactic(auto, unfolding(crate::specs::PlaceTables::account_row))]
pub(crate) fn account_row(
    alloc: Global,
    setting: &Setting,
    place: u64,
    info: &AccountInfo,
) -> Result<Option<Keyed>, NoMemory>
    ensures { IfOk result (λ row. row ≡ spec.account_row setting.now place info.now) }
{
    match name_of(&setting.names, info.user_name.0) {
        Some(user) => match name_of(&setting.names, info.host_name.0) {
            Some(host) => {
                let row = named_account(alloc, place, info, user, host)?;
                Ok(Some(row))
            }
            None => Ok(None),
        },
        None => Ok(None),
    }
}

fn named_row(alloc: Global, place: u64, info: &NameInfo, name: &str) -> Result<Keyed, NoMemory>
    ensures { IfOk result (λ row. row ≡ (spec_name_key name.now [] place, spec.name_values info.now name.now)) }
{
    let shown = text_value(alloc, name.as_bytes())?;
    let values = vec![in alloc;
        shown,
        RowValue::Number(info.current),
        RowValue::Number(info.total),
    ]?;
    let name = Text::from_slice(alloc, name.as_bytes())?;
    let key = name_key(name, Text::new(Vec::new(alloc)), place);
    Ok((key, Row::new(values)))
}

/// A user's or a host's row, with its place in the order. None where the setting doesn't have its
/// name.
#[tactic(auto, unfolding(crate::specs::PlaceTables::name_row))]
pub(crate) fn name_row(
    alloc: Global,
    setting: &Setting,
    place: u64,
    info: &NameInfo,
) -> Result<Option<Keyed>, NoMemory>
    ensures { IfOk result (λ row. row ≡ spec.name_row setting.now place info.now) }
{
    match name_of(&setting.names, info.name.0) {
        Some(name) => {
            let row = named_row(alloc, place, info, name)?;
            Ok(Some(row))
        }
        None => Ok(None),
    }
}

fn class_values(alloc: Global, flags: u16, name: &str) -> Result<Row, NoMemory>
    ensures { IfOk result (λ row. row ≡ spec.class_values flags name.now) }
{
    let name = text_value(alloc, name.as_bytes())?;
    let enabled = bit_value(alloc, flags, 0)?;
    let timed = bit_value(alloc, flags, 1)?;
    let values = vec![in alloc; name, enabled, timed]?;
    Ok(Row::new(values))
}

/// The row of the class whose flags this word has, with its place in the order. None where the word
/// is no class's.
#[tactic(auto, unfolding(crate::specs::PlaceTables::class_row))]
pub(crate) fn class_row(
    alloc: Global,
    setting: &Setting,
    word: u64,
    flags: u16,
) -> Result<Option<Keyed>, NoMemory>
    ensures { IfOk result (λ row. row ≡ spec.class_row setting.now word flags) }
{
    if word < 33 {
        return Ok(None);
    }
    match class_name(setting, word - 33) {
        Some(name) => {
            let row = class_values(alloc, flags, name)?;
            Ok(Some((number_key(alloc, word - 33, 0, word), row)))
        }
        None => Ok(None),
    }
}

/// The row of a consumer, with its place in the order.
pub(crate) fn consumer_row(alloc: Global, flags: u16, consumer: Consumer) -> Result<Keyed, NoMemory>
    ensures { IfOk result (λ row. row ≡ spec.consumer_row flags consumer) }
{
    let name = text_value(alloc, consumer.name().as_bytes())?;
    let flag = flag_value(alloc, Flags(flags).get(consumer))?;
    let values = vec![in alloc; name, flag]?;
    Ok((
        number_key(alloc, u64::from(consumer.bit()), 0, 0),
        Row::new(values),
    ))
}
