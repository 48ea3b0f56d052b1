//! What an event's start loads of the setup, and what it decides by that.

ghost use Rattle.std.specs.Prelude.{◌≡◌, ◌<◌, ◌∷◌, [], ℕ, IfSome, is_some};
ghost use Rattle.std.specs.Option.{option_map};
ghost use Rattle.pfs_levels.specs.Calls.{Goes, Loads};
ghost use Rattle.pfs_levels.specs.Views.{Same};
ghost use Rattle.pfs_model.specs.SetupFlags.{is_enabled, has_time, verdict_by};
ghost use Rattle.pfs_session.specs.Starts.{IsLoaded, load_calls, table_calls, flags_in, flags_of, verdict_seen, is_timed_by, is_digested_by, if_through, start_entry, version_of};

use crate::events::{is_statement, is_wait};
use pfs_consumers::{Consumer, Flags, acts};
use pfs_event::{Entry, Verdict};
use pfs_levels::{Rows, Word};
use pfs_model::Subject;

/// How many let-through waits of a session may be open. The number is our own.
const MOST_WAITS: u64 = 4;

/// The switch words that an event's start loaded, each with its version and its flags: the consumers', the thread's,
/// the class's and, of an event of a table, the table's.
#[derive(Clone, Copy, Debug, PartialEq, Eq)]
pub struct Setup {
    pub consumers: Word,
    pub thread: Word,
    pub class: Word,
    pub table: Option<Word>,
}

/// Loads what a start looks at: nothing of a session without a slot and of a lost class.
pub(crate) fn load<R: Rows>(rows: &mut R, slot: Option<u64>, subject: &Subject) -> Option<Setup>
    requires slot { IfSome slot (λ n. n < 32) }
    requires class { IfSome subject.now.class (λ n. n < 63) }
    requires table { IfSome subject.now.table (λ n. n < 64) }
    ensures loaded { IsLoaded slot subject.now.class subject.now.table result }
    ensures goes { Goes (R.seen rows.old).reached (R.seen rows.new).reached
        (load_calls slot subject.now.class subject.now.table result) }
    ensures kept { Same (R.seen rows.old) (R.seen rows.new) }
{
    let Some(slot) = slot else {
        return None;
    };
    let Some(class) = subject.class else {
        return None;
    };
    let (consumers_version, consumers) = rows.load(0);
    let (thread_version, thread) = rows.load(1 + slot);
    let (class_version, class) = rows.load(33 + class);
    Some(Setup {
        consumers: Word {
            version: consumers_version,
            flags: consumers,
        },
        thread: Word {
            version: thread_version,
            flags: thread,
        },
        class: Word {
            version: class_version,
            flags: class,
        },
        table: load_table(rows, subject.table),
    })
}

// The word of a table, of an event of a table.
fn load_table<R: Rows>(rows: &mut R, table: Option<u64>) -> Option<Word>
    requires { IfSome table (λ n. n < 64) }
    ensures loaded { is_some result ≡ is_some table }
    ensures goes { Goes (R.seen rows.old).reached (R.seen rows.new).reached (table_calls table result) }
    ensures kept { Same (R.seen rows.old) (R.seen rows.new) }
{
    match table {
        Some(table) => Some(load_word(rows, 96 + table)),
        None => None,
    }
}

/// Loads a switch word.
pub(crate) fn load_word<R: Rows>(rows: &mut R, at: u64) -> Word
    requires { at < 160 }
    ensures goes { Goes (R.seen rows.old).reached (R.seen rows.new).reached (Loads at result.version result.flags
        ∷ []) }
    ensures kept { Same (R.seen rows.old) (R.seen rows.new) }
{
    let (version, flags) = rows.load(at);
    Word { version, flags }
}

// Whether ENABLED of a class or a table, or INSTRUMENTED of a thread, is YES.
fn is_enabled(flags: u16) -> bool
    ensures { result ≡ is_enabled flags }
{
    flags & 1 == 1
}

// Whether TIMED of a class or a table is YES.
fn has_time(flags: u16) -> bool
    ensures { result ≡ has_time flags }
{
    flags >> 1 & 1 == 1
}

// The flags of a table's word, 0 without one.
fn flags_in(word: Option<Word>) -> u16
    ensures { result ≡ flags_in word }
{
    match word {
        Some(word) => word.flags,
        None => 0,
    }
}

/// The verdict of an event, where so many let-through statements and waits of its session are open, and at most
/// `stack` statements may be nested: the first case that holds.
pub(crate) fn judge(
    stack: u64,
    slot: Option<u64>,
    subject: &Subject,
    seen: &Option<Setup>,
    statements: u64,
    waits: u64,
) -> Verdict
    ensures { result ≡ verdict_seen stack slot subject.now seen.now statements waits }
{
    if slot.is_none() {
        return Verdict::LostThread;
    }
    match seen {
        None => Verdict::LostClass,
        Some(seen) => judge_by(stack, subject, seen, statements, waits),
    }
}

fn judge_by(stack: u64, subject: &Subject, seen: &Setup, statements: u64, waits: u64) -> Verdict
    ensures { result ≡ verdict_by stack subject.now (flags_of seen.now) statements waits }
{
    let consumers = Flags(seen.consumers.flags);
    let threads_count = consumers.get(Consumer::ThreadInstrumentation);
    if !consumers.get(Consumer::GlobalInstrumentation) {
        Verdict::OffGlobal
    } else if !is_enabled(seen.class.flags) {
        Verdict::OffClass
    } else if subject.table.is_some() && !is_enabled(flags_in(seen.table)) {
        Verdict::OffTable
    } else if threads_count && !is_enabled(seen.thread.flags) {
        Verdict::OffThread
    } else if is_statement(subject.kind) && stack <= statements {
        Verdict::LostNested
    } else if is_wait(subject.kind) && MOST_WAITS <= waits {
        Verdict::LostLocker
    } else if !threads_count {
        Verdict::Aside
    } else {
        Verdict::Attributed
    }
}

/// Whether an event's time counts.
pub(crate) fn is_timed(subject: &Subject, seen: &Option<Setup>) -> bool
    ensures { result ≡ is_timed_by subject.now seen.now }
{
    match seen {
        Some(seen) => {
            has_time(seen.class.flags)
                && (subject.table.is_none() || has_time(flags_in(seen.table)))
        }
        None => false,
    }
}

/// Whether an event is a digested statement: one that is let through, while `statements_digest` acts.
pub(crate) fn is_digested(subject: &Subject, verdict: Verdict, seen: &Option<Setup>) -> bool
    ensures { result ≡ is_digested_by subject.now verdict seen.now }
{
    match seen {
        Some(seen) => {
            is_statement(subject.kind)
                && verdict.is_let_through()
                && acts(Flags(seen.consumers.flags), Consumer::StatementsDigest)
        }
        None => false,
    }
}

/// A number that only an event that is let through has.
pub(crate) fn if_through(verdict: Verdict, number: u64) -> Option<u64>
    ensures { result ≡ if_through verdict number }
{
    if verdict.is_let_through() {
        Some(number)
    } else {
        None
    }
}

/// The entry of a start.
pub(crate) fn start_entry(verdict: Verdict, number: u64, seen: &Option<Setup>) -> Entry
    ensures { result ≡ start_entry verdict number seen.now }
{
    let event = if_through(verdict, number);
    match seen {
        Some(seen) => Entry::Start {
            event,
            verdict,
            consumers: Some(seen.consumers.version),
            thread: Some(seen.thread.version),
            class: Some(seen.class.version),
            table: version_in(seen.table),
        },
        None => Entry::Start {
            event,
            verdict,
            consumers: None,
            thread: None,
            class: None,
            table: None,
        },
    }
}

fn version_in(word: Option<Word>) -> Option<u64>
    ensures { result ≡ option_map version_of word }
{
    match word {
        Some(word) => Some(word.version),
        None => None,
    }
}
