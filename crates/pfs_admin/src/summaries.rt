//! The levels of a summary, of one kind or of all, and the rows of digests.

ghost use Rattle.std.specs.Prelude.{true, ◌≡◌, ◌<◌, ◌≤◌, ◌++◌, ◌∷◌, [], ℕ, All, Option, None};
ghost use Rattle.pfs_levels.specs.declared.places.Level.TheVariants as levels;
ghost use Rattle.pfs_levels.specs.Moves.{Moved, Stays, cost};
ghost use Rattle.pfs_admin.specs.AdministrationStates.{AreKindCells, kind_cells};
ghost use Rattle.pfs_admin.specs.Truncations.{cleared, digest_asks, emptied, reach_of, lower_asks, upper_asks, reach_asks, summary_asks, all_asks, truncation_asks};

use crate::cells::CellsByKind;
use crate::emptying::{empty_level, empty_level_if};
use pfs_containers::Containers;
use pfs_levels::{Hold, Level, Log, clear};
use pfs_rows::{Place, SummaryTable, TableKind, Truncation, row_of};

/// Moves what a truncation moves: a summary its own kind, by its own level; that of digests their rows, nowhere;
/// `accounts`, `users` and `hosts` all kinds, by theirs; an event table and a setup table nothing. The log gets each take
/// and its gifts.
#[tactic(auto, using(crate::proofs::LevelMoves::moved_nothing, crate::proofs::LevelMoves::stays_nothing))]
pub(crate) fn move_truncated<H: Hold>(
    rows: &mut H,
    containers: &Containers,
    cells: &CellsByKind,
    what: Truncation,
    log: &mut Log,
)
    requires alone { (r : ℕ) → 0 < r → (H.seen rows.old).hand r ≡ None }
    requires cells { AreKindCells cells.now }
    requires spare { cost (truncation_asks cells.now containers.now.now.places what) ≤ (H.seen rows.old).left }
    requires room { cost (truncation_asks cells.now containers.now.now.places what) ≤ log.old.room }
    ensures moved { Moved (truncation_asks cells.now containers.now.now.places what) log.old log.new
        (H.seen rows.old).reached (H.seen rows.new).reached }
    ensures stays { Stays (cost (truncation_asks cells.now containers.now.now.places what)) (H.seen rows.old)
        (H.seen rows.new) log.old log.new }
{
    match what {
        Truncation::Summary(kind, table) => {
            empty_kind(rows, containers, table, cells, kind, log);
        }
        Truncation::DigestSummary => clear_digests(rows, cells.digests(), log),
        Truncation::Accounts => empty_all(rows, containers, SummaryTable::ByAccount, cells, log),
        Truncation::Users => empty_all(rows, containers, SummaryTable::ByUser, cells, log),
        Truncation::Hosts => empty_all(rows, containers, SummaryTable::ByHost, cells, log),
        Truncation::Events(_, _) | Truncation::SetupActors | Truncation::SetupObjects => {}
    }
}

/// Which levels a summary empties beside the threads.
#[derive(Clone, Copy)]
pub(crate) struct Reach {
    pub(crate) accounts: bool,
    pub(crate) users: bool,
    pub(crate) hosts: bool,
    pub(crate) global: bool,
}

impl Reach {
    /// The levels of a summary: the rules are our own, after MySQL's.
    pub(crate) fn of(table: SummaryTable) -> Reach
        ensures { result ≡ reach_of table }
    {
        Reach {
            accounts: !matches!(table, SummaryTable::ByThread),
            users: matches!(table, SummaryTable::ByUser | SummaryTable::Global),
            hosts: matches!(table, SummaryTable::ByHost | SummaryTable::Global),
            global: matches!(table, SummaryTable::Global),
        }
    }
}

// All kinds, one behind the other.
fn empty_all<H: Hold>(
    rows: &mut H,
    containers: &Containers,
    table: SummaryTable,
    cells: &CellsByKind,
    log: &mut Log,
)
    requires alone { (r : ℕ) → 0 < r → (H.seen rows.old).hand r ≡ None }
    requires cells { AreKindCells cells.now }
    requires spare { cost (all_asks cells.now containers.now.now.places table) ≤ (H.seen rows.old).left }
    requires room { cost (all_asks cells.now containers.now.now.places table) ≤ log.old.room }
    ensures moved { Moved (all_asks cells.now containers.now.now.places table) log.old log.new
        (H.seen rows.old).reached (H.seen rows.new).reached }
    ensures stays { Stays (cost (all_asks cells.now containers.now.now.places table)) (H.seen rows.old)
        (H.seen rows.new) log.old log.new }
{
    empty_kind(rows, containers, table, cells, TableKind::Waits, log);
    empty_kind(rows, containers, table, cells, TableKind::Stages, log);
    empty_kind(rows, containers, table, cells, TableKind::Statements, log);
    empty_kind(rows, containers, table, cells, TableKind::Transactions, log);
}

// The cells of one kind.
fn empty_kind<H: Hold>(
    rows: &mut H,
    containers: &Containers,
    table: SummaryTable,
    cells: &CellsByKind,
    kind: TableKind,
    log: &mut Log,
)
    requires alone { (r : ℕ) → 0 < r → (H.seen rows.old).hand r ≡ None }
    requires cells { AreKindCells cells.now }
    requires spare { cost (summary_asks containers.now.now.places table (kind_cells cells.now kind))
        ≤ (H.seen rows.old).left }
    requires room { cost (summary_asks containers.now.now.places table (kind_cells cells.now kind)) ≤ log.old.room }
    ensures moved { Moved (summary_asks containers.now.now.places table (kind_cells cells.now kind)) log.old log.new
        (H.seen rows.old).reached (H.seen rows.new).reached }
    ensures stays { Stays (cost (summary_asks containers.now.now.places table (kind_cells cells.now kind)))
        (H.seen rows.old) (H.seen rows.new) log.old log.new }
{
    let list = cells.of_kind(kind);
    empty_summary(rows, containers, table, list, log);
}

// The levels of a summary.
fn empty_summary<H: Hold>(
    rows: &mut H,
    containers: &Containers,
    table: SummaryTable,
    cells: &[u64],
    log: &mut Log,
)
    requires alone { (r : ℕ) → 0 < r → (H.seen rows.old).hand r ≡ None }
    requires cells { All (λ cell. cell < 64) cells.now }
    requires spare { cost (summary_asks containers.now.now.places table cells.now) ≤ (H.seen rows.old).left }
    requires room { cost (summary_asks containers.now.now.places table cells.now) ≤ log.old.room }
    ensures moved { Moved (summary_asks containers.now.now.places table cells.now) log.old log.new
        (H.seen rows.old).reached (H.seen rows.new).reached }
    ensures stays { Stays (cost (summary_asks containers.now.now.places table cells.now)) (H.seen rows.old)
        (H.seen rows.new) log.old log.new }
{
    let reach = Reach::of(table);
    empty_levels(rows, containers, reach, cells, log);
}

// Lowest level first.
fn empty_levels<H: Hold>(
    rows: &mut H,
    containers: &Containers,
    reach: Reach,
    cells: &[u64],
    log: &mut Log,
)
    requires alone { (r : ℕ) → 0 < r → (H.seen rows.old).hand r ≡ None }
    requires cells { All (λ cell. cell < 64) cells.now }
    requires spare { cost (reach_asks containers.now.now.places reach cells.now) ≤ (H.seen rows.old).left }
    requires room { cost (reach_asks containers.now.now.places reach cells.now) ≤ log.old.room }
    ensures moved { Moved (reach_asks containers.now.now.places reach cells.now) log.old log.new
        (H.seen rows.old).reached (H.seen rows.new).reached }
    ensures stays { Stays (cost (reach_asks containers.now.now.places reach cells.now)) (H.seen rows.old)
        (H.seen rows.new) log.old log.new }
{
    empty_lower(rows, containers, reach, cells, log);
    empty_upper(rows, containers, reach, cells, log);
}

// Threads and accounts.
fn empty_lower<H: Hold>(
    rows: &mut H,
    containers: &Containers,
    reach: Reach,
    cells: &[u64],
    log: &mut Log,
)
    requires alone { (r : ℕ) → 0 < r → (H.seen rows.old).hand r ≡ None }
    requires cells { All (λ cell. cell < 64) cells.now }
    requires spare { cost (lower_asks containers.now.now.places reach cells.now) ≤ (H.seen rows.old).left }
    requires room { cost (lower_asks containers.now.now.places reach cells.now) ≤ log.old.room }
    ensures moved { Moved (lower_asks containers.now.now.places reach cells.now) log.old log.new
        (H.seen rows.old).reached (H.seen rows.new).reached }
    ensures stays { Stays (cost (lower_asks containers.now.now.places reach cells.now)) (H.seen rows.old)
        (H.seen rows.new) log.old log.new }
{
    empty_level(rows, containers, Level::Thread, cells, log);
    empty_level_if(rows, containers, reach.accounts, Level::Account, cells, log);
}

// Users, hosts and the global cells.
fn empty_upper<H: Hold>(
    rows: &mut H,
    containers: &Containers,
    reach: Reach,
    cells: &[u64],
    log: &mut Log,
)
    requires alone { (r : ℕ) → 0 < r → (H.seen rows.old).hand r ≡ None }
    requires cells { All (λ cell. cell < 64) cells.now }
    requires spare { cost (upper_asks containers.now.now.places reach cells.now) ≤ (H.seen rows.old).left }
    requires room { cost (upper_asks containers.now.now.places reach cells.now) ≤ log.old.room }
    ensures moved { Moved (upper_asks containers.now.now.places reach cells.now) log.old log.new
        (H.seen rows.old).reached (H.seen rows.new).reached }
    ensures stays { Stays (cost (upper_asks containers.now.now.places reach cells.now)) (H.seen rows.old)
        (H.seen rows.new) log.old log.new }
{
    empty_level_if(rows, containers, reach.users, Level::User, cells, log);
    empty_beyond(rows, containers, reach, cells, log);
}

// Hosts and the global cells.
fn empty_beyond<H: Hold>(
    rows: &mut H,
    containers: &Containers,
    reach: Reach,
    cells: &[u64],
    log: &mut Log,
)
    requires alone { (r : ℕ) → 0 < r → (H.seen rows.old).hand r ≡ None }
    requires cells { All (λ cell. cell < 64) cells.now }
    requires spare { cost (emptied reach.hosts containers.now.now.places cells.now levels.Host ++ cleared reach.global
        cells.now) ≤ (H.seen rows.old).left }
    requires room { cost (emptied reach.hosts containers.now.now.places cells.now levels.Host ++ cleared reach.global
        cells.now) ≤ log.old.room }
    ensures moved { Moved (emptied reach.hosts containers.now.now.places cells.now levels.Host ++ cleared reach.global
        cells.now) log.old log.new (H.seen rows.old).reached (H.seen rows.new).reached }
    ensures stays { Stays (cost (emptied reach.hosts containers.now.now.places cells.now levels.Host ++ cleared
        reach.global cells.now)) (H.seen rows.old) (H.seen rows.new) log.old log.new }
{
    empty_level_if(rows, containers, reach.hosts, Level::Host, cells, log);
    clear_global_if(rows, reach.global, cells, log);
}

// Leaves the global cells as zero, where they are to be.
#[tactic(auto, using(crate::proofs::LevelMoves::moved_nothing, crate::proofs::LevelMoves::stays_nothing))]
fn clear_global_if<H: Hold>(rows: &mut H, due: bool, cells: &[u64], log: &mut Log)
    requires alone { (r : ℕ) → 0 < r → (H.seen rows.old).hand r ≡ None }
    requires cells { All (λ cell. cell < 64) cells.now }
    requires spare { cost (cleared due cells.now) ≤ (H.seen rows.old).left }
    requires room { cost (cleared due cells.now) ≤ log.old.room }
    ensures moved { Moved (cleared due cells.now) log.old log.new (H.seen rows.old).reached (H.seen rows.new).reached }
    ensures stays { Stays (cost (cleared due cells.now)) (H.seen rows.old) (H.seen rows.new) log.old log.new }
{
    if due {
        clear_global(rows, cells, log);
    }
}

fn clear_global<H: Hold>(rows: &mut H, cells: &[u64], log: &mut Log)
    requires alone { (r : ℕ) → 0 < r → (H.seen rows.old).hand r ≡ None }
    requires cells { All (λ cell. cell < 64) cells.now }
    requires spare { cost (cleared true cells.now) ≤ (H.seen rows.old).left }
    requires room { cost (cleared true cells.now) ≤ log.old.room }
    ensures moved { Moved (cleared true cells.now) log.old log.new (H.seen rows.old).reached
        (H.seen rows.new).reached }
    ensures stays { Stays (cost (cleared true cells.now)) (H.seen rows.old) (H.seen rows.new) log.old log.new }
{
    for cell in cells {
        clear(rows, row_of(Place::GlobalCell(*cell)), log);
    }
}

// Leaves the rows of digests as zero: that of the texts without a place, then those of so many places.
fn clear_digests<H: Hold>(rows: &mut H, places: u64, log: &mut Log)
    requires alone { (r : ℕ) → 0 < r → (H.seen rows.old).hand r ≡ None }
    requires places { places ≤ 64 }
    requires spare { cost (digest_asks places) ≤ (H.seen rows.old).left }
    requires room { cost (digest_asks places) ≤ log.old.room }
    ensures moved { Moved (digest_asks places) log.old log.new (H.seen rows.old).reached (H.seen rows.new).reached }
    ensures stays { Stays (cost (digest_asks places)) (H.seen rows.old) (H.seen rows.new) log.old log.new }
{
    for at in 0..places + 1 {
        clear(rows, row_of(Place::DigestNull) + at, log);
    }
}
