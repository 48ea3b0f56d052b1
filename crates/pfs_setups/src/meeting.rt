//! Which rows meet conditions, and how many.

ghost use Rattle.std.specs.Prelude.{◌≡◌, ◌≤◌, map, count_by, if◌then◌else◌};
ghost use Rattle.std.specs.List.{list_all, range_with_len, slice_index_or};
ghost use Rattle.pfs_exec.specs.Selections.{meets_all, meets_value, value_at, value_of};
ghost use Rattle.pfs_setups.specs.SetupRows.{actor_meets, consumer_meets, consumers_met, instrument_values, is_met, is_word_met, met_up_to, object_meets, session_values, slot_values, word_values, words_met};

use crate::RowNames;
use crate::shown::{actor_shown, class_shown, consumer_shown, object_shown, session_shown};
use pfs_consumers::Consumer;
use pfs_containers::{Connection, Containers};
use pfs_matching::{ActorRow, ObjectRow};
use pfs_rows::{Table, WORDS};
use pfs_text::{Shown, Test, meets};

pub(crate) fn actor_meets(tests: &[Test], row: &ActorRow) -> bool
    ensures { result ≡ actor_meets tests.now row.now }
{
    meets_all(tests, &actor_shown(row))
}

pub(crate) fn object_meets(tests: &[Test], row: &ObjectRow) -> bool
    ensures { result ≡ object_meets tests.now row.now }
{
    meets_all(tests, &object_shown(row))
}

pub(crate) fn consumer_meets(tests: &[Test], flags: u16, consumer: Consumer) -> bool
    ensures { result ≡ consumer_meets tests.now flags consumer }
{
    meets_all(tests, &consumer_shown(flags, consumer))
}

/// Whether the row that a word's flags stand in is there and meets the tests.
#[tactic(auto, unfolding(crate::specs::SetupRows::word_values))]
pub(crate) fn word_meets(
    names: &RowNames,
    containers: &Containers,
    table: Table,
    tests: &[Test],
    word: u64,
    flags: u16,
) -> bool
    ensures { result
        ≡ is_met tests.now (word_values names.now containers.now.now.places.threads table word flags) }
{
    match table {
        Table::Threads => 1 <= word
            && word < 33
            && slot_meets(names, containers, tests, word - 1, flags),
        Table::SetupInstruments => 33 <= word
            && word < 96
            && class_meets(names, tests, word - 33, flags),
        _ => false,
    }
}

fn slot_meets(
    names: &RowNames,
    containers: &Containers,
    tests: &[Test],
    slot: u64,
    flags: u16,
) -> bool
    ensures { result ≡ is_met tests.now (slot_values names.now containers.now.now.places.threads flags slot) }
{
    match containers.session(slot) {
        Some(session) => session_meets(names, tests, &session, flags),
        None => false,
    }
}

fn session_meets(names: &RowNames, tests: &[Test], session: &Connection, flags: u16) -> bool
    ensures { result ≡ is_met tests.now (session_values names.now flags session.now) }
{
    match names.text(session.user_name) {
        Some(user) => match names.text(session.host_name) {
            Some(host) => meets_all(tests, &session_shown(session, flags, user, host)),
            None => false,
        },
        None => false,
    }
}

fn class_meets(names: &RowNames, tests: &[Test], id: u64, flags: u16) -> bool
    ensures { result ≡ is_met tests.now (instrument_values names.now flags id) }
{
    match names.class(id) {
        Some(name) => meets_all(tests, &class_shown(flags, name)),
        None => false,
    }
}

/// How many consumers meet the tests.
pub(crate) fn consumers_met(tests: &[Test], flags: u16) -> u64
    ensures { result ≡ consumers_met tests.now flags }
{
    let met = Consumer::ALL
        .iter()
        .filter(|consumer| consumer_meets(tests, flags, **consumer));
    met.count() as u64
}

/// How many rows that stand in the 160 words meet the tests.
pub(crate) fn words_met(
    names: &RowNames,
    containers: &Containers,
    table: Table,
    tests: &[Test],
    flags: &[u16],
) -> u64
    ensures { result ≡ words_met names.now containers.now.now.places.threads table tests.now flags.now }
{
    met_up_to(names, containers, table, tests, flags, WORDS)
}

fn met_up_to(
    names: &RowNames,
    containers: &Containers,
    table: Table,
    tests: &[Test],
    flags: &[u16],
    count: u64,
) -> u64
    ensures { result ≡ met_up_to names.now containers.now.now.places.threads table tests.now flags.now count }
{
    let mut met = 0;
    for word in 0..count {
        let counts = word_meets(names, containers, table, tests, word, flags_at(flags, word));
        met += one_if(counts);
    }
    met
}

fn one_if(met: bool) -> u64
    ensures number { result ≡ if met then 1 else 0 }
    ensures few { result ≤ 1 }
{
    if met { 1 } else { 0 }
}

/// The flags at a place, or 0.
pub(crate) fn flags_at(flags: &[u16], word: u64) -> u16
    ensures { result ≡ slice_index_or flags.now word 0 }
{
    flags.get(word as usize).copied().unwrap_or(0)
}

// Whether a row of these values meets each test.
fn meets_all(tests: &[Test], row: &[Shown<'_>]) -> bool
    ensures { result ≡ meets_all tests.now (map value_of row.now) }
{
    for test in tests {
        if !meets_test(test, row) {
            return false;
        }
    }
    true
}

fn meets_test(test: &Test, row: &[Shown<'_>]) -> bool
    ensures { result ≡ meets_value test.now.kind (value_at (map value_of row.now) test.now.column) }
{
    pfs_exec::laws::tests_decide();
    meets(test, shown_at(row, test.column))
}

// The value at a place; one that the row doesn't have shows NULL.
fn shown_at<'a>(row: &[Shown<'a>], place: u64) -> Shown<'a>
    ensures { value_of result ≡ value_at (map value_of row.now) place }
{
    match row.get(place as usize) {
        Some(shown) => *shown,
        None => Shown::Null,
    }
}
