//! The cells of a kind at a level, moved up together.

ghost use Rattle.std.specs.Prelude.{◌≡◌, ◌<◌, ◌≤◌, ◌∷◌, [], Option, All, length, slice_index_or};
ghost use Rattle.pfs_levels.specs.declared.flushes.Source.{Source};
ghost use Rattle.pfs_levels.specs.Flushes.{cells_of, beyond, upper, ask_of, asks_of, sources_of, flushed, IsBelow, IsUp, IsSource, ArePlaces, CellsAreAway, AllAreAway};
ghost use Rattle.pfs_levels.specs.Moves.{Moved, Stays, cost, targets_of};

use crate::moves::move_up;
use crate::places::{Level, Places, Targets, Up};
use crate::store::Hold;
use pfs_event::{EventKind, Log};
use pfs_rows::{Place, row_of};

/// A thread, an account, a user or a host, whose cells are moved.
#[derive(Clone, Copy, Debug, PartialEq, Eq)]
pub enum Source {
    Thread(Up),
    Account(Up),
    User(u64),
    Host(u64),
}

/// Moves every cell of a kind at a level, in ascending row order: a thread's to its account, or without one to its
/// user and its host, with a user alone to the user and the global cell, with a host alone to the host, with neither
/// to the global cell; an account's so without the account; a user's are dropped, for the host carries the total; a
/// host's to the global cell. These rules are MySQL's. The log gets each take and its gifts.
pub fn flush<H: Hold>(rows: &mut H, kind: EventKind, level: Level, places: &Places, log: &mut Log)
    requires places { ArePlaces places.now kind level }
    requires away { AllAreAway (H.seen rows.old).hand (cells_of places.now kind) (sources_of places.now level) }
    requires spare { cost (flushed places.now kind level) ≤ (H.seen rows.old).left }
    requires room { cost (flushed places.now kind level) ≤ log.old.room }
    ensures moved { Moved (flushed places.now kind level) log.old log.new (H.seen rows.old).reached
        (H.seen rows.new).reached }
    ensures stays { Stays (cost (flushed places.now kind level)) (H.seen rows.old) (H.seen rows.new) log.old log.new }
{
    let cells = places.cells(kind);
    for at in 0..places.count(level) {
        flush_cells(rows, places.source(level, at), cells, log);
    }
}

/// Moves these cells of one thread, account, user or host, in the order given, by the rules of `flush`. The log gets
/// each take and its gifts.
pub fn flush_cells<H: Hold>(rows: &mut H, source: Source, cells: &[u64], log: &mut Log)
    requires source { IsSource source }
    requires cells { All (λ cell. cell < 64) cells.now }
    requires away { CellsAreAway (H.seen rows.old).hand cells.now source }
    requires spare { cost (asks_of cells.now source) ≤ (H.seen rows.old).left }
    requires room { cost (asks_of cells.now source) ≤ log.old.room }
    ensures moved { Moved (asks_of cells.now source) log.old log.new (H.seen rows.old).reached
        (H.seen rows.new).reached }
    ensures stays { Stays (cost (asks_of cells.now source)) (H.seen rows.old) (H.seen rows.new) log.old log.new }
{
    for cell in cells {
        let from = row_from(source, *cell);
        let to = targets(source, *cell);
        move_up(rows, from, &to, log);
    }
}

// The row of a source's cell.
fn row_from(source: Source, cell: u64) -> u64
    requires source { IsSource source }
    requires cell { cell < 64 }
    ensures { result ≡ (ask_of source cell).from }
{
    match source {
        Source::Thread(up) => row_of(Place::ThreadCell {
            thread: up.place,
            cell,
        }),
        Source::Account(up) => row_of(Place::AccountCell {
            account: up.place,
            cell,
        }),
        Source::User(user) => row_of(Place::UserCell { user, cell }),
        Source::Host(host) => row_of(Place::HostCell { host, cell }),
    }
}

// Where a source's cell goes.
fn targets(source: Source, cell: u64) -> Targets
    requires source { IsSource source }
    requires cell { cell < 64 }
    ensures { targets_of result ≡ (ask_of source cell).to }
{
    match source {
        Source::Thread(up) => upper_rows(&up, cell),
        Source::Account(up) => beyond_rows(up.user, up.host, cell),
        Source::User(_) => Targets {
            first: None,
            second: None,
        },
        Source::Host(_) => only(row_of(Place::GlobalCell(cell))),
    }
}

// Where a thread's cell goes.
fn upper_rows(up: &Up, cell: u64) -> Targets
    requires up { IsUp up.now }
    requires cell { cell < 64 }
    ensures { targets_of result ≡ upper up.now.account up.now.user up.now.host cell }
{
    match up.account {
        Some(account) => only(row_of(Place::AccountCell { account, cell })),
        None => beyond_rows(up.user, up.host, cell),
    }
}

// Where a cell goes that has no account.
fn beyond_rows(user: Option<u64>, host: Option<u64>, cell: u64) -> Targets
    requires user { IsBelow 32 user }
    requires host { IsBelow 32 host }
    requires cell { cell < 64 }
    ensures { targets_of result ≡ beyond user host cell }
{
    let global = row_of(Place::GlobalCell(cell));
    match user {
        Some(user) => {
            let first = row_of(Place::UserCell { user, cell });
            let second = match host {
                Some(host) => row_of(Place::HostCell { host, cell }),
                None => global,
            };
            Targets {
                first: Some(first),
                second: Some(second),
            }
        }
        None => match host {
            Some(host) => only(row_of(Place::HostCell { host, cell })),
            None => only(global),
        },
    }
}

fn only(row: u64) -> Targets
    ensures { targets_of result ≡ row ∷ [] }
{
    Targets {
        first: Some(row),
        second: None,
    }
}

impl Places {
    // How many places a level has.
    fn count(&self, level: Level) -> usize
        ensures { result ≡ length (sources_of self.now level) }
    {
        match level {
            Level::Thread => self.threads.as_slice().len(),
            Level::Account => self.accounts.as_slice().len(),
            Level::User => self.users.as_slice().len(),
            Level::Host => self.hosts.as_slice().len(),
        }
    }

    // The place of a level at an index.
    fn source(&self, level: Level, at: usize) -> Source
        requires { at < length (sources_of self.now level) }
        ensures { (d : Source) → result ≡ slice_index_or (sources_of self.now level) at d }
    {
        match level {
            Level::Thread => Source::Thread(self.threads.as_slice()[at]),
            Level::Account => Source::Account(self.accounts.as_slice()[at]),
            Level::User => Source::User(self.users.as_slice()[at]),
            Level::Host => Source::Host(self.hosts.as_slice()[at]),
        }
    }
}
