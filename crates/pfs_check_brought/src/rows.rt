//! The rows to which events are brought. They are counted with 128 bits: a slot may be printed for which no row has a
//! number.

ghost use Rattle.std.specs.Prelude.{◌≡◌};
ghost use Rattle.pfs_model.specs.Causes.{long_row};
ghost use Rattle.pfs_model.specs.EntryAsks.{cell_row, digest_row};
ghost use Rattle.pfs_model.specs.Rings.{current_row, history_row, ring_number};

use pfs_event::EventKind;

/// The row of a cell in a slot, or of a global one.
pub(crate) fn cell_row(slot: Option<u64>, cell: u64) -> u128
    ensures { result ≡ cell_row slot cell }
{
    match slot {
        Some(slot) => 129 + 64 * slot as u128 + cell as u128,
        None => 8321 + cell as u128,
    }
}

/// The row of a digest; that of all texts without a place where it has none.
pub(crate) fn digest_row(digest: Option<u64>) -> u128
    ensures { result ≡ digest_row digest }
{
    match digest {
        Some(digest) => 8386 + digest as u128,
        None => 8385,
    }
}

/// The current place of a kind in a slot, at a depth.
pub(crate) fn current_row(slot: u64, kind: EventKind, depth: u64) -> u128
    ensures { result ≡ current_row slot kind depth }
{
    let first = 8450 + 56 * slot as u128;
    match kind {
        EventKind::Wait => first + depth as u128,
        EventKind::Stage => first + 4,
        EventKind::Statement => first + 5 + depth as u128,
        EventKind::Transaction => first + 15,
    }
}

/// The number of a kind among the rings. It is our own.
pub(crate) fn ring_number(kind: EventKind) -> u64
    ensures { result ≡ ring_number kind }
{
    match kind {
        EventKind::Wait => 0,
        EventKind::Stage => 1,
        EventKind::Statement => 2,
        EventKind::Transaction => 3,
    }
}

/// The place of a put in the history of a kind, of which a slot has ten.
pub(crate) fn history_row(slot: u64, kind: u64, put: u64) -> u128
    ensures { result ≡ history_row slot kind put }
{
    8450 + 56 * slot as u128 + 16 + 10 * kind as u128 + (put % 10) as u128
}

/// The place of a ticket in the long history of a kind.
pub(crate) fn long_row(kind: u64, ticket: u64) -> u128
    ensures { result ≡ long_row kind ticket }
{
    10242 + 1000 * kind as u128 + (ticket % 1000) as u128
}
