//! Whose rows a summary has, and in which order they stand.

ghost use Rattle.std.specs.Prelude.{◌≡◌, ◌<◌, ◌+◌, ◌++◌, ◌∷◌, [], ℕ, true, length, IfOk, OnOk};
ghost use Rattle.std.specs.Option.{option_map};
ghost use Rattle.pfs_text.specs.declared.values.RowValue.TheVariants as value;
ghost use Rattle.pfs_containers.specs.InfoWords.{name_of, thread_of};
ghost use Rattle.pfs_containers.specs.declared.infos.ThreadInfo.{ThreadInfo};
ghost use Rattle.pfs_classes.specs.Registry.{text_of};
ghost use Rattle.pfs_summaries.specs.FoundContents.{info_at, thread_at};
ghost use Rattle.pfs_summaries.specs.Heads.{account_head, user_head, host_head, head_of, places_of, heading_of};
ghost use Rattle.pfs_summaries.specs.Summaries.{key_at};

use crate::NoMemory;
use crate::contents::info_at;
use crate::tallies::{PLACES, account_at};
use pfs_containers::{AccountInfo, Content, NameInfo, ThreadInfo};
use pfs_names::{NameId, Names};
use pfs_rows::SummaryTable;
use pfs_text::{RowValue, Text};
use std::alloc::Global;

/// What the rows of a place begin with: a thread's id, or an account's, user's or host's names. What
/// the table doesn't have is 0 or empty.
#[derive(Debug, Drop)]
pub struct Head {
    pub thread_id: u64,
    pub user: Text,
    pub host: Text,
    /// Whether the rows stand where nothing was counted.
    pub stands: bool,
}

/// The place of a row in its table's order: by thread, or by names, then by class, and where all
/// these are equal by the place of the board.
#[derive(Debug, PartialEq, Eq, PartialOrd, Ord, Drop)]
pub struct RowKey {
    pub thread_id: u64,
    pub user: Text,
    pub host: Text,
    pub class: u64,
    pub place: u64,
}

/// How many places may have rows.
pub fn places_of(which: SummaryTable) -> u64
    ensures { result ≡ places_of which }
{
    match which {
        SummaryTable::Global => 1,
        _ => PLACES,
    }
}

fn text_of(alloc: Global, names: &Names, id: NameId) -> Result<Text, NoMemory>
    requires { id < length names.now }
    ensures { IfOk result (λ text. text ≡ text_of names.now id) }
{
    let text = names.get(id);
    Text::from_slice(alloc, text.as_bytes())
}

fn no_text(alloc: Global) -> Text
    ensures { result ≡ [] }
{
    Text::new(Vec::new(alloc))
}

fn account_head(
    alloc: Global,
    names: &Names,
    info: Option<AccountInfo>,
) -> Result<Option<Head>, NoMemory>
    ensures { IfOk result (λ head. head ≡ account_head names.now info) }
{
    let Some(info) = info else {
        return Ok(None);
    };
    if !info.is_known(names) {
        return Ok(None);
    }
    let user = text_of(alloc, names, info.user_name)?;
    let host = text_of(alloc, names, info.host_name)?;
    Ok(Some(Head {
        thread_id: 0,
        user,
        host,
        stands: info.current != 0,
    }))
}

fn user_head(alloc: Global, names: &Names, info: Option<NameInfo>) -> Result<Option<Head>, NoMemory>
    ensures { IfOk result (λ head. head ≡ user_head names.now info) }
{
    let Some(info) = info else {
        return Ok(None);
    };
    if !info.is_known(names) {
        return Ok(None);
    }
    let user = text_of(alloc, names, info.name)?;
    Ok(Some(Head {
        thread_id: 0,
        user,
        host: no_text(alloc),
        stands: info.current != 0,
    }))
}

fn host_head(alloc: Global, names: &Names, info: Option<NameInfo>) -> Result<Option<Head>, NoMemory>
    ensures { IfOk result (λ head. head ≡ host_head names.now info) }
{
    let Some(info) = info else {
        return Ok(None);
    };
    if !info.is_known(names) {
        return Ok(None);
    }
    let host = text_of(alloc, names, info.name)?;
    Ok(Some(Head {
        thread_id: 0,
        user: no_text(alloc),
        host,
        stands: info.current != 0,
    }))
}

fn name_at(infos: &[Option<Content>], at: usize) -> Option<NameInfo>
    ensures { result ≡ option_map name_of (info_at infos.now at) }
{
    match info_at(infos, at) {
        Some(words) => Some(NameInfo::of_content(&words)),
        None => None,
    }
}

fn standing(alloc: Global, thread_id: u64) -> Head
    ensures { result ≡ record { thread_id = thread_id; user = []; host = []; stands = true } }
{
    Head {
        thread_id,
        user: no_text(alloc),
        host: no_text(alloc),
        stands: true,
    }
}

fn thread_head(alloc: Global, infos: &[Option<Content>], thread: u64) -> Option<Head>
    requires { thread < 32 }
    ensures { result ≡ option_map (λ (info : ThreadInfo). record {
      thread_id = info.session;
      user = [];
      host = [];
      stands = true;
    }) (thread_at infos.now thread) }
{
    match info_at(infos, 1 + thread as usize) {
        Some(words) => Some(standing(alloc, ThreadInfo::of_content(&words).session)),
        None => None,
    }
}

/// What the rows of a place begin with, or none where it has no rows: its info wasn't found whole,
/// or a name isn't one of these.
pub fn head_of(
    alloc: Global,
    which: SummaryTable,
    names: &Names,
    infos: &[Option<Content>],
    place: u64,
) -> Result<Option<Head>, NoMemory>
    requires { place < 32 }
    ensures { IfOk result (λ head. head ≡ head_of which names.now infos.now place) }
{
    match which {
        SummaryTable::ByThread => Ok(thread_head(alloc, infos, place)),
        SummaryTable::ByAccount => account_head(alloc, names, account_at(infos, place)),
        SummaryTable::ByUser => user_head(alloc, names, name_at(infos, 65 + place as usize)),
        SummaryTable::ByHost => host_head(alloc, names, name_at(infos, 97 + place as usize)),
        SummaryTable::Global => Ok(Some(standing(alloc, 0))),
    }
}

impl Head {
    /// The place of a class's row in the table's order.
    pub fn row_key(&self, place: u64, class: u64) -> Result<RowKey, NoMemory>
        ensures { IfOk result (λ key. key ≡ key_at self.now place class) }
    {
        let user = self.user.clone()?;
        let host = self.host.clone()?;
        Ok(RowKey {
            thread_id: self.thread_id,
            user,
            host,
            class,
            place,
        })
    }

    /// Appends the values that a row begins with.
    pub fn put(&self, which: SummaryTable, values: &mut Vec<RowValue>) -> Result<(), NoMemory>
        ensures { OnOk result (values.new.items ≡ values.old.items ++ heading_of which self.now) }
    {
        match which {
            SummaryTable::ByThread => put_value(values, RowValue::Number(self.thread_id)),
            SummaryTable::ByAccount => put_names(values, &self.user, &self.host),
            SummaryTable::ByUser => put_name(values, &self.user),
            SummaryTable::ByHost => put_name(values, &self.host),
            SummaryTable::Global => Ok(()),
        }
    }
}

/// Appends one value.
pub fn put_value(values: &mut Vec<RowValue>, value: RowValue) -> Result<(), NoMemory>
    ensures { OnOk result (values.new.items ≡ values.old.items ++ value ∷ []) }
{
    values.push(value)?;
    Ok(())
}

fn put_name(values: &mut Vec<RowValue>, name: &Text) -> Result<(), NoMemory>
    ensures { OnOk result (values.new.items ≡ values.old.items ++ value.Text name.now ∷ []) }
{
    let name = name.clone()?;
    put_value(values, RowValue::Text(name))
}

fn put_names(values: &mut Vec<RowValue>, user: &Text, host: &Text) -> Result<(), NoMemory>
    ensures { OnOk result (values.new.items ≡ values.old.items ++ value.Text user.now ∷ value.Text host.now ∷ []) }
{
    put_name(values, user)?;
    put_name(values, host)
}
