//! The changes that are due of an action, by what its takes find.

ghost use Rattle.std.specs.Prelude.{◌≡◌, ◌≤◌, ◌++◌, ◌∷◌, [], cond, length, IfOk, OnOk};
ghost use Rattle.pfs_check_orders.specs.ActionOrders.{entries_in};
ghost use Rattle.pfs_check_moves.specs.DueMoves.{due_of, is_due};
ghost use Rattle.pfs_check_moves.specs.FoundTakes.{counted_in};

use crate::NoMemory;
use crate::finds::counted_in;
use pfs_check_orders::Order;
use pfs_event::{Entry, Log};
use std::alloc::Global;
use std::collections::BTreeMap;

fn is_due(found: &BTreeMap<u64, bool>, entry: &Entry) -> bool
    ensures { result ≡ is_due (counted_in found.now) entry.now }
{
    match *entry {
        Entry::Give { source, .. } => counted_in(found, source),
        Entry::Set { .. } => false,
        _ => true,
    }
}

fn push_due(due: &mut Vec<Entry>, found: &BTreeMap<u64, bool>, entry: Entry) -> Result<(), NoMemory>
    ensures { OnOk result (due.new.items
        ≡ due.old.items ++ cond (is_due (counted_in found.now) entry) (entry ∷ []) []) }
{
    if is_due(found, &entry) {
        due.push(entry)?;
    }
    Ok(())
}

/// The changes that are due of an action beside its sets, where its takes find this. Err where memory runs out.
pub(crate) fn due_moves(
    alloc: Global,
    found: &BTreeMap<u64, bool>,
    entries: &Log,
    order: Order,
) -> Result<Vec<Entry>, NoMemory>
    ensures { order.end ≤ length entries.now.entries
        → IfOk result (λ due. due.items ≡ due_of (counted_in found.now) (entries_in entries.now.entries order)) }
{
    let end = order.end.min(entries.count());
    let mut due = Vec::new(alloc);
    for place in order.start..end {
        push_due(&mut due, found, entries.entry(place))?;
    }
    Ok(due)
}
