//! What the flags that an event's start saw say of it.

ghost use Rattle.std.specs.Prelude.{ℕ, ◌≡◌, Option, Some};
ghost use Rattle.pfs_consumers.specs.Tree.{acts_of, is_on};
ghost use Rattle.pfs_consumers.specs.declared.Consumer.TheVariants.{StatementsDigest};
ghost use Rattle.pfs_model.specs.SetupFlags.{class_word, flags_seen, has_time, is_digested, is_timed, table_word};
ghost use Rattle.pfs_check_verdicts.specs.PrintedSets.{GivesFlags};

use pfs_check_verdicts::PrintedFlags;
use pfs_consumers::Consumer;
use pfs_event::EventKind;
use pfs_model::Opened;

// Whether TIMED of a class or a table is YES.
fn has_time(flags: u64) -> bool
    ensures { result ≡ has_time flags }
{
    flags >> 1 & 1 == 1
}

fn class_seen(kept: &PrintedFlags, event: &Opened) -> u64
    ensures { (flags : ℕ → ℕ → ℕ) → GivesFlags flags kept.now
        → result ≡ flags_seen flags class_word event.now.subject.class event.now.class }
{
    kept.seen(33, event.subject.class, event.class)
}

fn table_seen(kept: &PrintedFlags, event: &Opened) -> u64
    ensures { (flags : ℕ → ℕ → ℕ) → GivesFlags flags kept.now
        → result ≡ flags_seen flags table_word event.now.subject.table event.now.table }
{
    kept.seen(96, event.subject.table, event.table)
}

fn consumers_seen(kept: &PrintedFlags, event: &Opened) -> u64
    ensures { (flags : ℕ → ℕ → ℕ) → GivesFlags flags kept.now
        → result ≡ flags_seen flags (λ number. number) (Some 0) event.now.consumers }
{
    kept.seen(0, Some(0), event.consumers)
}

/// Whether an event's time counts: TIMED of its class was YES at its start, and of its table, where it is of one.
pub(crate) fn is_timed(kept: &PrintedFlags, event: &Opened) -> bool
    ensures { (flags : ℕ → ℕ → ℕ) → (slot : Option ℕ) → GivesFlags flags kept.now
        → result ≡ is_timed flags slot event.now }
{
    let class = has_time(class_seen(kept, event));
    let table = has_time(table_seen(kept, event));
    class && (event.subject.table.is_none() || table)
}

fn is_on(flags: u64, consumer: Consumer) -> bool
    ensures { result ≡ is_on flags consumer }
{
    flags >> consumer.bit() & 1 == 1
}

// The consumer of digests acts: it and the one that stands over it are YES.
fn digests(flags: u64) -> bool
    ensures { result ≡ acts_of flags StatementsDigest }
{
    is_on(flags, Consumer::StatementsDigest) && is_on(flags, Consumer::GlobalInstrumentation)
}

/// Whether an event is digested: a let-through statement, at whose start the consumer of digests acted.
pub(crate) fn is_digested(kept: &PrintedFlags, event: &Opened) -> bool
    ensures { (flags : ℕ → ℕ → ℕ) → (slot : Option ℕ) → GivesFlags flags kept.now
        → result ≡ is_digested flags slot event.now }
{
    let acts = digests(consumers_seen(kept, event));
    let through = event.verdict.is_let_through();
    let statement = matches!(event.subject.kind, EventKind::Statement);
    statement && through && acts
}
