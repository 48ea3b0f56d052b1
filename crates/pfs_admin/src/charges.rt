//! What a truncation costs at most.

ghost use Rattle.std.specs.Prelude.{◌≡◌, ◌≤◌, ◌+◌, ◌*◌, ℕ, Option, length};
ghost use Rattle.pfs_levels.specs.Flushes.{ask_of, beyond};
ghost use Rattle.pfs_levels.specs.Moves.{cost};
ghost use Rattle.pfs_admin.specs.AdministrationStates.{AreKindCells, kind_cells};
ghost use Rattle.pfs_admin.specs.Truncations.{all_asks, cleared, digest_asks, emptied, event_most, flags_most, is_there, level_asks, moves_bound, place_asks, reach_asks, signs_bound, signs_most, standing, summary_asks, truncation_asks};

use crate::cells::CellsByKind;
use crate::emptying::source_at;
use crate::summaries::Reach;
use pfs_containers::Containers;
use pfs_levels::{Level, Source};
use pfs_rows::{EventTable, SummaryTable, TableKind, Truncation};

/// The takes of a truncation's moves, and what they may give: at most 289 for each of 66 cells in all kinds.
pub(crate) fn moves_cost(containers: &Containers, cells: &CellsByKind, what: Truncation) -> u64
    requires { AreKindCells cells.now }
    ensures cost { result ≡ cost (truncation_asks cells.now containers.now.now.places what) }
    ensures few { result ≤ moves_bound what }
{
    match what {
        Truncation::Summary(kind, table) => kind_cost(containers, table, cells, kind),
        Truncation::DigestSummary => digests_cost(cells.digests()),
        Truncation::Accounts => all_cost(containers, SummaryTable::ByAccount, cells),
        Truncation::Users => all_cost(containers, SummaryTable::ByUser, cells),
        Truncation::Hosts => all_cost(containers, SummaryTable::ByHost, cells),
        Truncation::Events(_, _) | Truncation::SetupActors | Truncation::SetupObjects => 0,
    }
}

/// A row for each place of a truncation's tables where something stands, and for each of an event table.
pub(crate) fn signs_cost(containers: &Containers, what: Truncation) -> u64
    ensures most { result ≡ signs_most (is_there containers.now.now.places) what }
    ensures few { result ≤ signs_bound what }
{
    match what {
        Truncation::Events(_, table) => events_cost(table),
        Truncation::Accounts => count(containers, Level::Account),
        Truncation::Users => count(containers, Level::Account) + count(containers, Level::User),
        Truncation::Hosts => count(containers, Level::Account) + count(containers, Level::Host),
        Truncation::Summary(_, _)
        | Truncation::DigestSummary
        | Truncation::SetupActors
        | Truncation::SetupObjects => 0,
    }
}

/// The words of the tables, for the objects' rows.
pub(crate) fn flags_cost(what: Truncation) -> u64
    ensures most { result ≡ flags_most what }
    ensures few { result ≤ 64 }
{
    match what {
        Truncation::SetupObjects => 64,
        Truncation::Events(_, _)
        | Truncation::Summary(_, _)
        | Truncation::DigestSummary
        | Truncation::Accounts
        | Truncation::Users
        | Truncation::Hosts
        | Truncation::SetupActors => 0,
    }
}

// Ten places of each of 32 threads, or those of a long history.
fn events_cost(table: EventTable) -> u64
    ensures { result ≡ event_most table }
{
    match table {
        EventTable::Current | EventTable::History => 320,
        EventTable::HistoryLong => 1_000,
    }
}

// The rows of so many places of digests, and that of the texts without one.
#[tactic(auto, using(crate::proofs::TruncationCosts::digests_cost))]
fn digests_cost(places: u64) -> u64
    requires { places ≤ 64 }
    ensures cost { result ≡ cost (digest_asks places) }
    ensures few { result ≤ 65 }
{
    places + 1
}

// How many places of a level something stands at.
fn count(containers: &Containers, level: Level) -> u64
    ensures number { result ≡ standing (is_there containers.now.now.places level) }
    ensures few { result ≤ 32 }
{
    let mut count = 0;
    for place in 0..32 {
        if source_at(containers, level, place).is_some() {
            count += 1;
        }
    }
    count
}

// All kinds.
fn all_cost(containers: &Containers, table: SummaryTable, cells: &CellsByKind) -> u64
    requires { AreKindCells cells.now }
    ensures cost { result ≡ cost (all_asks cells.now containers.now.now.places table) }
    ensures few { result ≤ 19_074 }
{
    kind_cost(containers, table, cells, TableKind::Waits)
        + (kind_cost(containers, table, cells, TableKind::Stages)
            + (kind_cost(containers, table, cells, TableKind::Statements)
                + kind_cost(containers, table, cells, TableKind::Transactions)))
}

// The cells of one kind.
fn kind_cost(
    containers: &Containers,
    table: SummaryTable,
    cells: &CellsByKind,
    kind: TableKind,
) -> u64
    requires { AreKindCells cells.now }
    ensures cost { result ≡ cost (summary_asks containers.now.now.places table (kind_cells cells.now kind)) }
    ensures few { result ≤ 289 * length (kind_cells cells.now kind) }
{
    let list = cells.of_kind(kind);
    reach_cost(containers, Reach::of(table), list)
}

// The levels of a summary. For each cell a place of a thread or an account, of which there are 32 each, costs its take
// and two gifts, one of a host a take and a gift, one of a user and the global row a take alone: 289 at most.
fn reach_cost(containers: &Containers, reach: Reach, cells: &[u64]) -> u64
    requires { length cells.now ≤ 64 }
    ensures cost { result ≡ cost (reach_asks containers.now.now.places reach cells.now) }
    ensures few { result ≤ 289 * length cells.now }
{
    let threads = level_cost(containers, Level::Thread, cells);
    let accounts = level_cost_if(containers, reach.accounts, Level::Account, cells);
    let users = level_cost_if(containers, reach.users, Level::User, cells);
    let hosts = level_cost_if(containers, reach.hosts, Level::Host, cells);
    (threads + accounts) + (users + (hosts + global_cost(reach.global, cells)))
}

fn global_cost(due: bool, cells: &[u64]) -> u64
    ensures { result ≡ cost (cleared due cells.now) }
{
    if due { cells.len() as u64 } else { 0 }
}

fn level_cost_if(containers: &Containers, due: bool, level: Level, cells: &[u64]) -> u64
    requires { length cells.now ≤ 64 }
    ensures { result ≡ cost (emptied due containers.now.now.places cells.now level) }
{
    if due {
        level_cost(containers, level, cells)
    } else {
        0
    }
}

// The places of a level.
fn level_cost(containers: &Containers, level: Level, cells: &[u64]) -> u64
    requires { length cells.now ≤ 64 }
    ensures { result ≡ cost (level_asks containers.now.now.places cells.now level) }
{
    let mut sum = 0;
    for place in 0..32 {
        let source = source_at(containers, level, place);
        sum += place_cost(source, cells);
    }
    sum
}

// A place, where something stands there.
fn place_cost(source: Option<Source>, cells: &[u64]) -> u64
    requires { length cells.now ≤ 64 }
    ensures { result ≡ cost (place_asks cells.now source) }
{
    match source {
        Some(source) => cell_cost(source) * cells.len() as u64,
        None => 0,
    }
}

// A cell's take, and what it may give.
fn cell_cost(source: Source) -> u64
    ensures takes { (cell : ℕ) → result ≡ 1 + length (ask_of source cell).to }
    ensures few { result ≤ 3 }
{
    match source {
        Source::Thread(up) => match up.account {
            Some(_) => 2,
            None => beyond_cost(up.user, up.host),
        },
        Source::Account(up) => beyond_cost(up.user, up.host),
        Source::User(_) => 1,
        Source::Host(_) => 2,
    }
}

// Of what has no account.
fn beyond_cost(user: Option<u64>, host: Option<u64>) -> u64
    ensures takes { (cell : ℕ) → result ≡ 1 + length (beyond user host cell) }
    ensures few { result ≤ 3 }
{
    match (user, host) {
        (Some(_), _) => 3,
        (None, _) => 2,
    }
}
