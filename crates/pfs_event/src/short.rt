//! An entry in 16 bytes, where its numbers are small.

ghost use Rattle.std.specs.Prelude.{◌≡◌, IfSome, length};
ghost use Rattle.pfs_event.specs.declared.entry.Entry.TheVariants as says;
ghost use Rattle.pfs_event.specs.PackedEntries.{optional, single_of, pair_of, triple_of, short_of, IsAmong, IsShort};

use crate::entry::Entry;
use crate::packed::{Packed, unpack};
use crate::verdict::Verdict;

/// Which entry of one number it is.
#[derive(Clone, Copy)]
pub enum Single {
    Act,
    Reply,
    Error,
    Vacant,
    Rows,
}

/// Which entry of two numbers it is.
#[derive(Clone, Copy)]
pub enum Pair {
    Add,
    Ring,
    Take,
    Tag,
    Free,
    Seen,
    Saw,
}

/// Which entry of three numbers it is.
#[derive(Clone, Copy)]
pub enum Triple {
    Held,
    Long,
    Busy,
    Late,
    Give,
    Set,
}

/// An entry whose numbers are small, or the place where it stands among the others. Fields lie in the order of the
/// source, so what is small stands first, and nothing is lost to alignment.
#[derive(Clone, Copy)]
pub enum Short {
    /// A start. It has an event number where its verdict lets it through, and versions where the flags say so.
    Start {
        verdict: Verdict,
        has_words: bool,
        has_table: bool,
        event: u32,
        consumers: u16,
        thread: u16,
        class: u16,
        table: u16,
    },
    /// An end, of an event that was let through or not.
    End {
        is_through: bool,
        consumers: u16,
        thread: u16,
        event: u32,
        last: u32,
    },
    Single(Single, u64),
    Pair(Pair, u32, u64),
    Triple(Triple, u32, u32, u32),
    Settle,
    Query,
    /// An entry that has no short form, at this place of those.
    Long(u64),
}

const _: () = prove!(size_of::<Short>() == 16);

// A number of 16 bits for one that is there just where the flag says so, where it takes no more.
#[inline(always)]
fn small(is_there: bool, number: Option<u64>) -> Option<u16>
    ensures { IfSome result (λ n. optional is_there n ≡ number) }
{
    match number {
        Some(number) => {
            if is_there && number < 65_536 {
                Some(number as u16)
            } else {
                None
            }
        }
        None => { if is_there { None } else { Some(0) } }
    }
}

// A number of 32 bits, where it takes no more.
#[inline(always)]
fn medium(number: u64) -> Option<u32>
    ensures { IfSome result (λ n. n ≡ number) }
{
    if number < 4_294_967_296 {
        Some(number as u32)
    } else {
        None
    }
}

// The same for one that is there just where the flag says so.
#[inline(always)]
fn medium_if(is_there: bool, number: Option<u64>) -> Option<u32>
    ensures { IfSome result (λ n. optional is_there n ≡ number) }
{
    match number {
        Some(number) => { if is_there { medium(number) } else { None } }
        None => { if is_there { None } else { Some(0) } }
    }
}

#[inline(always)]
fn short_start(
    event: Option<u64>,
    verdict: Verdict,
    consumers: Option<u64>,
    thread: Option<u64>,
    class: Option<u64>,
    table: Option<u64>,
) -> Option<Short>
    ensures { IfSome result (IsShort (says.Start event verdict consumers thread class table)) }
{
    let has_words = class.is_some();
    let has_table = table.is_some();
    Some(Short::Start {
        verdict,
        has_words,
        has_table,
        event: medium_if(verdict.is_let_through(), event)?,
        consumers: small(has_words, consumers)?,
        thread: small(has_words, thread)?,
        class: small(has_words, class)?,
        table: small(has_table, table)?,
    })
}

#[inline(always)]
fn short_end(
    event: Option<u64>,
    last: Option<u64>,
    consumers: Option<u64>,
    thread: Option<u64>,
) -> Option<Short>
    ensures { IfSome result (IsShort (says.End event last consumers thread)) }
{
    let is_through = event.is_some();
    Some(Short::End {
        is_through,
        consumers: small(is_through, consumers)?,
        thread: small(is_through, thread)?,
        event: medium_if(is_through, event)?,
        last: medium_if(is_through, last)?,
    })
}

#[inline(always)]
fn short_pair(which: Pair, row: u64, version: u64) -> Option<Short>
    ensures { IfSome result (IsShort (pair_of which row version)) }
{
    Some(Short::Pair(which, medium(row)?, version))
}

#[inline(always)]
fn short_triple(which: Triple, row: u64, second: u64, third: u64) -> Option<Short>
    ensures { IfSome result (IsShort (triple_of which row second third)) }
{
    Some(Short::Triple(which, medium(row)?, medium(second)?, medium(third)?))
}

/// The short form of an entry, where it has one.
#[inline(always)]
pub fn shorten(entry: &Entry) -> Option<Short>
    ensures { IfSome result (IsShort entry.now) }
{
    match *entry {
        Entry::Connect { .. } => None,
        Entry::Start {
            event,
            verdict,
            consumers,
            thread,
            class,
            table,
        } => short_start(event, verdict, consumers, thread, class, table),
        Entry::End {
            event,
            last,
            consumers,
            thread,
        } => short_end(event, last, consumers, thread),
        Entry::Add { row, version } => short_pair(Pair::Add, row, version),
        Entry::Held { row, first, second } => short_triple(Triple::Held, row, first, second),
        Entry::Ring { row, version } => short_pair(Pair::Ring, row, version),
        Entry::Long {
            row,
            version,
            ticket,
        } => short_triple(Triple::Long, row, version, ticket),
        Entry::Busy { row, first, second } => short_triple(Triple::Busy, row, first, second),
        Entry::Late {
            row,
            ticket,
            greater,
        } => short_triple(Triple::Late, row, ticket, greater),
        Entry::Settle => Some(Short::Settle),
        Entry::Act { action } => Some(Short::Single(Single::Act, action)),
        Entry::Take { row, version } => short_pair(Pair::Take, row, version),
        Entry::Give {
            row,
            version,
            source,
        } => short_triple(Triple::Give, row, version, source),
        Entry::Tag { row, version } => short_pair(Pair::Tag, row, version),
        Entry::Free { row, version } => short_pair(Pair::Free, row, version),
        Entry::Set {
            word,
            version,
            flags,
        } => short_triple(Triple::Set, word, version, flags),
        Entry::Reply { number } => Some(Short::Single(Single::Reply, number)),
        Entry::Error { number } => Some(Short::Single(Single::Error, number)),
        Entry::Query => Some(Short::Query),
        Entry::Seen { row, version } => short_pair(Pair::Seen, row, version),
        Entry::Vacant { row } => Some(Short::Single(Single::Vacant, row)),
        Entry::Saw { word, version } => short_pair(Pair::Saw, word, version),
        Entry::Rows { number } => Some(Short::Single(Single::Rows, number)),
    }
}

/// A number that may have nothing to say.
#[inline(always)]
pub fn optional(is_there: bool, number: u64) -> Option<u64>
    ensures { result ≡ optional is_there number }
{
    if is_there { Some(number) } else { None }
}

/// The entry of one number.
pub fn single_entry(which: Single, number: u64) -> Entry
    ensures { result ≡ single_of which number }
{
    match which {
        Single::Act => Entry::Act { action: number },
        Single::Reply => Entry::Reply { number },
        Single::Error => Entry::Error { number },
        Single::Vacant => Entry::Vacant { row: number },
        Single::Rows => Entry::Rows { number },
    }
}

/// The entry of two numbers.
pub fn pair_entry(which: Pair, row: u64, version: u64) -> Entry
    ensures { result ≡ pair_of which row version }
{
    match which {
        Pair::Add => Entry::Add { row, version },
        Pair::Ring => Entry::Ring { row, version },
        Pair::Take => Entry::Take { row, version },
        Pair::Tag => Entry::Tag { row, version },
        Pair::Free => Entry::Free { row, version },
        Pair::Seen => Entry::Seen { row, version },
        Pair::Saw => Entry::Saw { word: row, version },
    }
}

/// The entry of three numbers.
pub fn triple_entry(which: Triple, row: u64, second: u64, third: u64) -> Entry
    ensures { result ≡ triple_of which row second third }
{
    match which {
        Triple::Held => Entry::Held {
            row,
            first: second,
            second: third,
        },
        Triple::Long => Entry::Long {
            row,
            version: second,
            ticket: third,
        },
        Triple::Busy => Entry::Busy {
            row,
            first: second,
            second: third,
        },
        Triple::Late => Entry::Late {
            row,
            ticket: second,
            greater: third,
        },
        Triple::Give => Entry::Give {
            row,
            version: second,
            source: third,
        },
        Triple::Set => Entry::Set {
            word: row,
            version: second,
            flags: third,
        },
    }
}

/// The entry of a short form, where those without one are these.
#[inline(always)]
pub fn lengthen(short: Short, others: &[Packed]) -> Entry
    requires { IsAmong (length others.now) short }
    ensures { result ≡ short_of others.now short }
{
    match short {
        Short::Start {
            verdict,
            has_words,
            has_table,
            event,
            consumers,
            thread,
            class,
            table,
        } => Entry::Start {
            event: optional(verdict.is_let_through(), event as u64),
            verdict,
            consumers: optional(has_words, consumers as u64),
            thread: optional(has_words, thread as u64),
            class: optional(has_words, class as u64),
            table: optional(has_table, table as u64),
        },
        Short::End {
            is_through,
            consumers,
            thread,
            event,
            last,
        } => Entry::End {
            event: optional(is_through, event as u64),
            last: optional(is_through, last as u64),
            consumers: optional(is_through, consumers as u64),
            thread: optional(is_through, thread as u64),
        },
        Short::Single(which, number) => single_entry(which, number),
        Short::Pair(which, row, version) => pair_entry(which, row as u64, version),
        Short::Triple(which, row, second, third) => {
            triple_entry(which, row as u64, second as u64, third as u64)
        }
        Short::Settle => Entry::Settle,
        Short::Query => Entry::Query,
        Short::Long(place) => unpack(&others[place as usize]),
    }
}
