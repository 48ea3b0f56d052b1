//! The words of the info rows that actions write.

ghost use Rattle.std.specs.Prelude.{ℕ, ◌≡◌, ◌≤◌, ◌++◌, List, length, slice_get, IfOk, OnOk};
ghost use Rattle.std.specs.List.{flat_map};
ghost use Rattle.pfs_admin.specs.declared.changes.Change.{Change};
ghost use Rattle.pfs_board.specs.declared.view.Label.{Label};
ghost use Rattle.pfs_classes.specs.declared.setting.Setting.{Setting};
ghost use Rattle.pfs_runs.specs.Labels.{words_at};
ghost use Rattle.pfs_check_orders.specs.ActionOrders.{entries_in};
ghost use Rattle.pfs_check_orders.specs.InfoWords.{AreInfos, info_of, infos_in, words_in, words_or_none};

use crate::NoMemory;
use crate::orders::{Order, Orders};
use pfs_board::Content;
use pfs_check_blank::Blank;
use pfs_event::{Entry, Log};

/// The words that an action writes to an info row.
#[derive(Clone, Copy, Debug, PartialEq, Eq)]
pub struct Info {
    pub row: u64,
    pub words: Content,
}

// The info row that an entry writes, if it does.
fn push_info(infos: &mut Vec<Info>, blank: &Blank, entry: &Entry) -> Result<(), NoMemory>
    ensures { OnOk result (infos.new.items ≡ infos.old.items ++ info_of blank.now.contents.items entry.now) }
{
    match *entry {
        Entry::Tag { row, .. } => {
            if let Some(words) = blank.last_put(row) {
                infos.push(Info { row, words })?;
            }
            Ok(())
        }
        _ => Ok(()),
    }
}

// The info rows that an action writes, in this order. Err where memory runs out.
fn push_infos(
    infos: &mut Vec<Info>,
    blank: &Blank,
    entries: &Log,
    order: Order,
) -> Result<(), NoMemory>
    ensures { order.end ≤ length entries.now.entries → OnOk result (infos.new.items ≡ infos.old.items
        ++ flat_map (info_of blank.now.contents.items) (entries_in entries.now.entries order)) }
{
    let end = order.end.min(entries.count());
    for place in order.start..end {
        push_info(infos, blank, &entries.entry(place))?;
    }
    Ok(())
}

/// The order of an action, with the info rows that it writes, which are kept behind the others. Err where memory runs
/// out.
pub(crate) fn keep_infos(
    infos: &mut Vec<Info>,
    blank: &Blank,
    entries: &Log,
    order: Order,
) -> Result<Order, NoMemory>
    ensures order { IfOk result (λ kept. kept ≡ record order {
      first_info = length infos.old.items;
      end_info = length infos.new.items;
    }) }
    ensures infos { order.end ≤ length entries.now.entries → OnOk result (infos.new.items ≡ infos.old.items
        ++ flat_map (info_of blank.now.contents.items) (entries_in entries.now.entries order)) }
{
    let first_info = infos.len();
    push_infos(infos, blank, entries, order)?;
    Ok(Order {
        first_info,
        end_info: infos.len(),
        ..order
    })
}

// The words of the first one of a row among those of an action.
fn first_words(infos: &[Info], order: Order, row: u64) -> Option<Content>
    ensures { order.end_info ≤ length infos.now
        → words_or_none result ≡ words_in (infos_in infos.now order) row }
{
    let end = order.end_info.min(infos.len());
    for place in order.first_info..end {
        let info = infos[place];
        if info.row == row {
            return Some(info.words);
        }
    }
    None
}

/// The order of the action behind so many others.
pub(crate) fn order_before(orders: &[Order], before: u64) -> Option<Order>
    ensures { result ≡ slice_get orders.now before }
{
    orders.get(before as usize).copied()
}

impl Orders {
    /// The words that the action of a number, counted from 1, writes to an info row; None where it doesn't write it.
    pub fn info_words(&self, number: u64, row: u64) -> Option<Content>
        ensures { (setting : Setting) → (change : Label → Change) → (labels : List Label)
            → AreInfos setting change labels self.now.infos.items self.now.orders.items
            → words_or_none result ≡ words_at setting change labels number row }
    {
        if number == 0 {
            return None;
        }
        match order_before(self.orders.as_slice(), number - 1) {
            Some(order) => first_words(self.infos.as_slice(), order, row),
            None => None,
        }
    }
}
