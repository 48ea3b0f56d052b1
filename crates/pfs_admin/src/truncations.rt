//! What a truncation writes.

ghost use Rattle.std.specs.Prelude.{◌≡◌, ◌<◌, ◌≤◌, ◌+◌, ◌^◌, [], ℕ, Option, Some, None, length};
ghost use Rattle.pfs_levels.specs.Views.{Used, lent_as};
ghost use Rattle.pfs_levels.specs.Moves.{Did};
ghost use Rattle.pfs_admin.specs.Works.{Worked, word_at, flagging_calls, flagging_entries};
ghost use Rattle.pfs_admin.specs.AdministrationStates.{AreKindCells};
ghost use Rattle.pfs_admin.specs.Truncations.{cost_most, flags_most, kept_behind, off_flags, off_words, truncation_flags, truncation_work, words_behind};

use crate::cells::CellsByKind;
use crate::remaining::{Standing, sign_truncated};
use crate::signs::flag;
use crate::summaries::move_truncated;
use pfs_containers::Containers;
use pfs_levels::{Hold, Log, Word};
use pfs_rows::Truncation;

/// Makes the moves of a truncation, frees what it frees, and writes the info rows and the words behind it.
pub(crate) fn write_truncation<H: Hold>(
    rows: &mut H,
    containers: &mut Containers,
    words: &mut [Word],
    cells: &CellsByKind,
    what: Truncation,
    log: &mut Log,
)
    requires alone { (r : ℕ) → 0 < r → (H.seen rows.old).hand r ≡ None }
    requires cells { AreKindCells cells.now }
    requires wide { length words.old ≡ 160 }
    requires lent { (H.seen rows.old).words ≡ Some words.old }
    requires early { (at : ℕ) → (word_at words.old at).version + 1 < 2 ^ 48 }
    requires spare { cost_most cells.now containers.old.now.places what ≤ (H.seen rows.old).left }
    requires room { cost_most cells.now containers.old.now.places what ≤ log.old.room }
    ensures worked { Worked (truncation_work words.old cells.now containers.old what) words.old [] log.old log.new
        (H.seen rows.old).reached (H.seen rows.new).reached }
    ensures kept { containers.new ≡ kept_behind containers.old what }
    ensures mine { words.new ≡ words_behind what words.old }
    ensures used { Used (cost_most cells.now containers.old.now.places what) 0 (cost_most cells.now
        containers.old.now.places what) (lent_as words.new (H.seen rows.old)) (H.seen rows.new) log.old log.new }
{
    move_truncated(rows, containers, cells, what, log);
    let before = Standing::of(containers);
    free_truncated(containers, what);
    sign_truncated(rows, containers, &before, what, log);
    set_truncated(rows, words, what, log);
}

// Frees what has no connection.
fn free_truncated(containers: &mut Containers, what: Truncation)
    ensures { containers.new ≡ kept_behind containers.old what }
{
    match what {
        Truncation::Accounts => containers.truncate_accounts(),
        Truncation::Users => containers.truncate_users(),
        Truncation::Hosts => containers.truncate_hosts(),
        Truncation::Events(_, _)
        | Truncation::Summary(_, _)
        | Truncation::DigestSummary
        | Truncation::SetupActors
        | Truncation::SetupObjects => {}
    }
}

// Sets the words that change: without a row of `setup_objects` no table is instrumented.
#[tactic(auto, using(crate::proofs::WordChanges::used_nothing, pfs_levels::proofs::MoveLists::did_none))]
fn set_truncated<H: Hold>(rows: &mut H, words: &mut [Word], what: Truncation, log: &mut Log)
    requires wide { length words.old ≡ 160 }
    requires lent { (H.seen rows.old).words ≡ Some words.old }
    requires early { (at : ℕ) → (word_at words.old at).version + 1 < 2 ^ 48 }
    requires room { flags_most what ≤ log.old.room }
    ensures did { Did (flagging_calls words.old (truncation_flags words.old what))
        (flagging_entries words.old (truncation_flags words.old what)) log.old log.new (H.seen rows.old).reached
        (H.seen rows.new).reached }
    ensures mine { words.new ≡ words_behind what words.old }
    ensures used { Used 0 0 (flags_most what) (lent_as words.new (H.seen rows.old)) (H.seen rows.new) log.old log.new }
{
    match what {
        Truncation::SetupObjects => turn_off(rows, words, log),
        Truncation::Events(_, _)
        | Truncation::Summary(_, _)
        | Truncation::DigestSummary
        | Truncation::Accounts
        | Truncation::Users
        | Truncation::Hosts
        | Truncation::SetupActors => {}
    }
}

// Clears the words of the tables that aren't off, ascending.
fn turn_off<H: Hold>(rows: &mut H, words: &mut [Word], log: &mut Log)
    requires wide { length words.old ≡ 160 }
    requires lent { (H.seen rows.old).words ≡ Some words.old }
    requires early { (at : ℕ) → (word_at words.old at).version + 1 < 2 ^ 48 }
    requires room { 64 ≤ log.old.room }
    ensures did { Did (flagging_calls words.old (off_flags words.old)) (flagging_entries words.old
        (off_flags words.old)) log.old log.new (H.seen rows.old).reached (H.seen rows.new).reached }
    ensures mine { words.new ≡ off_words words.old }
    ensures used { Used 0 0 64 (lent_as words.new (H.seen rows.old)) (H.seen rows.new) log.old log.new }
{
    for table in 0..64 {
        flag(rows, words, 96 + table, 0, log);
    }
}
