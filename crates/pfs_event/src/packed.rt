//! The entries as a journal keeps them: flags beside numbers, where options would take twice the room.

ghost use Rattle.std.specs.Prelude.{◌≡◌};
ghost use Rattle.pfs_event.specs.declared.entry.Entry.TheVariants as says;
ghost use Rattle.pfs_event.specs.PackedEntries.{entry_of};

use crate::entry::Entry;
use crate::short::{Pair, Single, Triple, optional, pair_entry, single_entry, triple_entry};
use crate::verdict::Verdict;

/// An entry in half of its room. Fields lie in the order of the source, so what is small stands first, and nothing is
/// lost to alignment. A number counts only where the flag of its name is true.
#[derive(Clone, Copy)]
pub enum Packed {
    Connect {
        has_thread: bool,
        has_account: bool,
        has_user: bool,
        has_host: bool,
        action: u64,
        thread: u64,
        account: u64,
        user: u64,
        host: u64,
    },
    Start {
        verdict: Verdict,
        has_event: bool,
        has_consumers: bool,
        has_thread: bool,
        has_class: bool,
        has_table: bool,
        event: u64,
        consumers: u64,
        thread: u64,
        class: u64,
        table: u64,
    },
    End {
        has_event: bool,
        has_last: bool,
        has_consumers: bool,
        has_thread: bool,
        event: u64,
        last: u64,
        consumers: u64,
        thread: u64,
    },
    Single(Single, u64),
    Pair(Pair, u64, u64),
    Triple(Triple, u64, u64, u64),
    Settle,
    Query,
}

fn pack_connect(
    action: u64,
    thread: Option<u64>,
    account: Option<u64>,
    user: Option<u64>,
    host: Option<u64>,
) -> Packed
    ensures { entry_of result ≡ says.Connect action thread account user host }
{
    Packed::Connect {
        has_thread: thread.is_some(),
        has_account: account.is_some(),
        has_user: user.is_some(),
        has_host: host.is_some(),
        action,
        thread: thread.unwrap_or(0),
        account: account.unwrap_or(0),
        user: user.unwrap_or(0),
        host: host.unwrap_or(0),
    }
}

fn pack_start(
    event: Option<u64>,
    verdict: Verdict,
    consumers: Option<u64>,
    thread: Option<u64>,
    class: Option<u64>,
    table: Option<u64>,
) -> Packed
    ensures { entry_of result ≡ says.Start event verdict consumers thread class table }
{
    Packed::Start {
        verdict,
        has_event: event.is_some(),
        has_consumers: consumers.is_some(),
        has_thread: thread.is_some(),
        has_class: class.is_some(),
        has_table: table.is_some(),
        event: event.unwrap_or(0),
        consumers: consumers.unwrap_or(0),
        thread: thread.unwrap_or(0),
        class: class.unwrap_or(0),
        table: table.unwrap_or(0),
    }
}

fn pack_end(
    event: Option<u64>,
    last: Option<u64>,
    consumers: Option<u64>,
    thread: Option<u64>,
) -> Packed
    ensures { entry_of result ≡ says.End event last consumers thread }
{
    Packed::End {
        has_event: event.is_some(),
        has_last: last.is_some(),
        has_consumers: consumers.is_some(),
        has_thread: thread.is_some(),
        event: event.unwrap_or(0),
        last: last.unwrap_or(0),
        consumers: consumers.unwrap_or(0),
        thread: thread.unwrap_or(0),
    }
}

/// Packs an entry.
pub fn pack(entry: Entry) -> Packed
    ensures { entry_of result ≡ entry }
{
    match entry {
        Entry::Connect {
            action,
            thread,
            account,
            user,
            host,
        } => pack_connect(action, thread, account, user, host),
        Entry::Start {
            event,
            verdict,
            consumers,
            thread,
            class,
            table,
        } => pack_start(event, verdict, consumers, thread, class, table),
        Entry::End {
            event,
            last,
            consumers,
            thread,
        } => pack_end(event, last, consumers, thread),
        Entry::Add { row, version } => Packed::Pair(Pair::Add, row, version),
        Entry::Held { row, first, second } => Packed::Triple(Triple::Held, row, first, second),
        Entry::Ring { row, version } => Packed::Pair(Pair::Ring, row, version),
        Entry::Long {
            row,
            version,
            ticket,
        } => Packed::Triple(Triple::Long, row, version, ticket),
        Entry::Busy { row, first, second } => Packed::Triple(Triple::Busy, row, first, second),
        Entry::Late {
            row,
            ticket,
            greater,
        } => Packed::Triple(Triple::Late, row, ticket, greater),
        Entry::Settle => Packed::Settle,
        Entry::Act { action } => Packed::Single(Single::Act, action),
        Entry::Take { row, version } => Packed::Pair(Pair::Take, row, version),
        Entry::Give {
            row,
            version,
            source,
        } => Packed::Triple(Triple::Give, row, version, source),
        Entry::Tag { row, version } => Packed::Pair(Pair::Tag, row, version),
        Entry::Free { row, version } => Packed::Pair(Pair::Free, row, version),
        Entry::Set {
            word,
            version,
            flags,
        } => Packed::Triple(Triple::Set, word, version, flags),
        Entry::Reply { number } => Packed::Single(Single::Reply, number),
        Entry::Error { number } => Packed::Single(Single::Error, number),
        Entry::Query => Packed::Query,
        Entry::Seen { row, version } => Packed::Pair(Pair::Seen, row, version),
        Entry::Vacant { row } => Packed::Single(Single::Vacant, row),
        Entry::Saw { word, version } => Packed::Pair(Pair::Saw, word, version),
        Entry::Rows { number } => Packed::Single(Single::Rows, number),
    }
}

/// The entry that was packed.
#[inline(always)]
pub fn unpack(packed: &Packed) -> Entry
    ensures { result ≡ entry_of packed.now }
{
    match *packed {
        Packed::Connect {
            has_thread,
            has_account,
            has_user,
            has_host,
            action,
            thread,
            account,
            user,
            host,
        } => Entry::Connect {
            action,
            thread: optional(has_thread, thread),
            account: optional(has_account, account),
            user: optional(has_user, user),
            host: optional(has_host, host),
        },
        Packed::Start {
            verdict,
            has_event,
            has_consumers,
            has_thread,
            has_class,
            has_table,
            event,
            consumers,
            thread,
            class,
            table,
        } => Entry::Start {
            event: optional(has_event, event),
            verdict,
            consumers: optional(has_consumers, consumers),
            thread: optional(has_thread, thread),
            class: optional(has_class, class),
            table: optional(has_table, table),
        },
        Packed::End {
            has_event,
            has_last,
            has_consumers,
            has_thread,
            event,
            last,
            consumers,
            thread,
        } => Entry::End {
            event: optional(has_event, event),
            last: optional(has_last, last),
            consumers: optional(has_consumers, consumers),
            thread: optional(has_thread, thread),
        },
        Packed::Single(which, number) => single_entry(which, number),
        Packed::Pair(which, row, version) => pair_entry(which, row, version),
        Packed::Triple(which, row, second, third) => triple_entry(which, row, second, third),
        Packed::Settle => Entry::Settle,
        Packed::Query => Entry::Query,
    }
}
