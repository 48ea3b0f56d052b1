//! Whether an entry is what is asked.

ghost use Rattle.std.specs.Prelude.{◌≡◌, ◌==◌};
ghost use Rattle.pfs_model.specs.EntryAsks.{are_loaded, both_loaded, cell_row, fits, is_added, is_end, is_start, is_summary, verdict_fits};

use pfs_event::{Entry, Verdict};
use pfs_model::Ask;

fn may_be(slot: bool, lost: bool, verdict: Verdict) -> bool
    ensures { result ≡ verdict_fits slot lost verdict }
{
    match verdict {
        Verdict::Attributed => slot && !lost,
        Verdict::Aside => !lost,
        _ => true,
    }
}

fn are_loaded(
    loads: bool,
    table: bool,
    consumers: Option<u64>,
    thread: Option<u64>,
    class: Option<u64>,
    of_table: Option<u64>,
) -> bool
    ensures { result ≡ are_loaded loads table consumers thread class of_table }
{
    match (consumers, thread, class, of_table) {
        (Some(_), Some(_), Some(_), Some(_)) => loads && table,
        (Some(_), Some(_), Some(_), None) => loads && !table,
        (None, None, None, None) => !loads,
        _ => false,
    }
}

fn both_loaded(through: bool, consumers: Option<u64>, thread: Option<u64>) -> bool
    ensures { result ≡ both_loaded through consumers thread }
{
    match (consumers, thread) {
        (Some(_), Some(_)) => through,
        (None, None) => !through,
        _ => false,
    }
}

fn starts(slot: bool, lost: bool, table: bool, entry: &Entry) -> bool
    ensures { result ≡ is_start slot lost table entry.now }
{
    match *entry {
        Entry::Start {
            verdict,
            consumers,
            thread,
            class,
            table: of_table,
            ..
        } => {
            may_be(slot, lost, verdict)
                && are_loaded(slot && !lost, table, consumers, thread, class, of_table)
        }
        _ => false,
    }
}

fn ends(through: bool, entry: &Entry) -> bool
    ensures { result ≡ is_end through entry.now }
{
    match *entry {
        Entry::End {
            consumers,
            thread,
            ..
        } => both_loaded(through, consumers, thread),
        _ => false,
    }
}

// Whether the row is that of the cell. A slot may be printed for which no row has a number.
fn is_row(row: u64, slot: Option<u64>, cell: u64) -> bool
    ensures { result ≡ (row == cell_row slot cell) }
{
    match slot {
        Some(slot) => row >= 129
            && row - 129 >= cell
            && (row - 129 - cell) % 64 == 0
            && (row - 129 - cell) / 64 == slot,
        None => row >= 8321 && row - 8321 == cell,
    }
}

fn sums(slot: Option<u64>, cell: u64, entry: &Entry) -> bool
    ensures { result ≡ is_summary slot cell entry.now }
{
    match *entry {
        Entry::Add { row, .. } => is_row(row, slot, cell),
        Entry::Held { row, .. } => is_row(row, slot, cell),
        _ => false,
    }
}

fn adds(row: u64, entry: &Entry) -> bool
    ensures { result ≡ is_added row entry.now }
{
    match *entry {
        Entry::Add { row: own, .. } => own == row,
        _ => false,
    }
}

/// Whether the entry is what is asked.
pub(crate) fn fits(ask: Ask, entry: &Entry) -> bool
    ensures { result ≡ fits ask entry.now }
{
    match ask {
        Ask::Connect => matches!(*entry, Entry::Connect { .. }),
        Ask::Start { slot, lost, table } => starts(slot, lost, table, entry),
        Ask::End { through } => ends(through, entry),
        Ask::Summary { slot, cell } => sums(slot, cell, entry),
        Ask::Digest => matches!(*entry, Entry::Add { .. } | Entry::Held { .. }),
        Ask::Put => matches!(*entry, Entry::Ring { .. } | Entry::Busy { .. }),
        Ask::LongPut => matches!(
            *entry,
            Entry::Long { .. } | Entry::Busy { .. } | Entry::Late { .. }
        ),
        Ask::Settle => matches!(*entry, Entry::Settle),
        Ask::Added { row } => adds(row, entry),
        Ask::Act => matches!(*entry, Entry::Act { .. }),
        Ask::Move => matches!(*entry, Entry::Take { .. } | Entry::Give { .. }),
        Ask::Sign => matches!(*entry, Entry::Free { .. } | Entry::Tag { .. }),
        Ask::Set => matches!(*entry, Entry::Set { .. }),
        Ask::Answer => matches!(*entry, Entry::Reply { .. } | Entry::Error { .. }),
        Ask::Error => matches!(*entry, Entry::Error { .. }),
        Ask::Query => matches!(*entry, Entry::Query),
        Ask::Reading => matches!(
            *entry,
            Entry::Seen { .. } | Entry::Vacant { .. } | Entry::Busy { .. } | Entry::Saw { .. }
        ),
        Ask::Rows => matches!(*entry, Entry::Rows { .. }),
    }
}
