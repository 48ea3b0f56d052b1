//! The verdict of an event by the flags that its start saw.

ghost use Rattle.std.specs.Prelude.{ℕ, ◌≡◌};
ghost use Rattle.pfs_consumers.specs.Tree.{is_on};
ghost use Rattle.pfs_event.specs.declared.entry.Entry.{Entry};
ghost use Rattle.pfs_model.specs.Contexts.{Context, subject_of};
ghost use Rattle.pfs_model.specs.SetupFlags.{IsJudged, is_enabled, is_statement, is_wait, seen_by, verdict_by, verdict_of};
ghost use Rattle.pfs_check_walk.specs.NumberTests.{Tells};
ghost use Rattle.pfs_check_verdicts.specs.PrintedSets.{GivesFlags};
ghost use Rattle.pfs_check_verdicts.specs.VerdictRules.{setup_of, started_by};

use crate::flags::PrintedFlags;
use pfs_check_trail::subject_in;
use pfs_check_walk::Track;
use pfs_consumers::Consumer;
use pfs_event::{Entry, EventKind, Verdict};
use pfs_model::{Line, Opened, Subject};

/// How many let-through waits of a session may be open. The number is our own.
const MOST_WAITS: u64 = 4;

/// The flags that a start saw; 0 of a word that it didn't load.
#[derive(Clone, Copy, Debug, PartialEq, Eq)]
pub struct SeenFlags {
    pub consumers: u64,
    pub thread: u64,
    pub class: u64,
    pub table: u64,
}

// Whether a consumer's flag is YES.
fn is_on(flags: u64, consumer: Consumer) -> bool
    ensures { result ≡ is_on flags consumer }
{
    flags >> consumer.bit() & 1 == 1
}

// Whether ENABLED of a class or a table, or INSTRUMENTED of a thread, is YES.
fn is_enabled(flags: u64) -> bool
    ensures { result ≡ is_enabled flags }
{
    flags & 1 == 1
}

fn is_statement(kind: EventKind) -> bool
    ensures { result ≡ is_statement kind }
{
    matches!(kind, EventKind::Statement)
}

fn is_wait(kind: EventKind) -> bool
    ensures { result ≡ is_wait kind }
{
    matches!(kind, EventKind::Wait)
}

// The verdict of the flags, where so many let-through statements and waits of the session are open, and at most `stack`
// statements may be nested: the first case that holds. The order is our own, what each looks at is MySQL's.
fn verdict_by(
    stack: u64,
    subject: &Subject,
    seen: SeenFlags,
    statements: u64,
    waits: u64,
) -> Verdict
    ensures { result ≡ verdict_by stack subject.now (setup_of seen) statements waits }
{
    let threads_count = is_on(seen.consumers, Consumer::ThreadInstrumentation);
    if !is_on(seen.consumers, Consumer::GlobalInstrumentation) {
        Verdict::OffGlobal
    } else if !is_enabled(seen.class) {
        Verdict::OffClass
    } else if subject.table.is_some() && !is_enabled(seen.table) {
        Verdict::OffTable
    } else if threads_count && !is_enabled(seen.thread) {
        Verdict::OffThread
    } else if is_statement(subject.kind) && stack <= statements {
        Verdict::LostNested
    } else if is_wait(subject.kind) && MOST_WAITS <= waits {
        Verdict::LostLocker
    } else if !threads_count {
        Verdict::Aside
    } else {
        Verdict::Attributed
    }
}

// What a start saw, by its session's printed slot and the printed versions.
fn seen_by(flags: &PrintedFlags, slot: Option<u64>, event: &Opened) -> SeenFlags
    ensures { (given : ℕ → ℕ → ℕ) → GivesFlags given flags.now → setup_of result ≡ seen_by given slot event.now }
{
    SeenFlags {
        consumers: flags.seen(0, Some(0), event.consumers),
        thread: flags.seen(1, slot, event.thread),
        class: flags.seen(33, event.subject.class, event.class),
        table: flags.seen(96, event.subject.table, event.table),
    }
}

// The event that a start begins, where its line starts one. Of how many it is the next isn't told.
fn started(line: &Line, entry: &Entry) -> Option<Opened>
    ensures { result ≡ started_by (subject_of line.now) entry.now }
{
    let subject = subject_in(line)?;
    match *entry {
        Entry::Start {
            event,
            verdict,
            consumers,
            thread,
            class,
            table,
        } => Some(Opened {
            subject,
            verdict,
            index: 0,
            number: event,
            consumers,
            thread,
            class,
            table,
        }),
        _ => None,
    }
}

// The verdict that is due of an event that starts.
fn verdict_due<T: Track>(flags: &PrintedFlags, stack: u64, track: &T, event: &Opened) -> Verdict
    ensures { (given : ℕ → ℕ → ℕ) → (context : Context) → GivesFlags given flags.now → T.tells track.now context
        → result ≡ verdict_of stack context.slot event.now.subject (seen_by given context.slot event.now)
        context.opened }
{
    let slot = track.slot();
    if slot.is_none() {
        return Verdict::LostThread;
    }
    if event.subject.class.is_none() {
        return Verdict::LostClass;
    }
    let seen = seen_by(flags, slot, event);
    verdict_by(
        stack,
        &event.subject,
        seen,
        track.statements(),
        track.waits(),
    )
}

fn is_same(one: Verdict, other: Verdict) -> bool
    ensures { Tells (one ≡ other) result }
{
    one == other
}

/// Whether an entry, if it is a start, names the verdict of the flags that it saw.
pub(crate) fn is_judged<T: Track>(
    flags: &PrintedFlags,
    stack: u64,
    track: &T,
    line: &Line,
    entry: &Entry,
) -> bool
    ensures { (given : ℕ → ℕ → ℕ) → (context : Context) → GivesFlags given flags.now → T.tells track.now context
        → Tells (IsJudged stack given (subject_of line.now) context entry.now) result }
{
    match started(line, entry) {
        Some(event) => {
            let due = verdict_due(flags, stack, track, &event);
            is_same(event.verdict, due)
        }
        None => true,
    }
}
