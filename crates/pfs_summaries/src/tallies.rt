//! What the cells of each key have counted.

ghost use Rattle.std.specs.Prelude.{◌≡◌, ◌<◌, ◌+◌, ◌*◌, ◌&&◌, ℕ, length, replicate, slice_set, slice_index_or, IfOk, MatchOption, Some, None};
ghost use Rattle.std.specs.List.{list_any};
ghost use Rattle.pfs_rows.specs.Rows.{IsPlace, place_at};
ghost use Rattle.pfs_summaries.specs.Cells.{account_of_thread, user_of_thread, host_of_thread, user_of_account, host_of_account, key_of, cell_of, hides_rows, is_hidden_by};
ghost use Rattle.pfs_summaries.specs.FoundContents.{thread_at, account_at, is_busy};
ghost use Rattle.pfs_summaries.specs.ReadingSteps.{none_of, added, with_cell, AreTallies};

use crate::NoMemory;
use crate::contents::info_at;
use pfs_containers::{AccountInfo, Content, ThreadInfo};
use pfs_rows::{CELLS, Place, Reading, Seen, SummaryTable, laws, place_of};
use pfs_stat::{Stat, zero};
use std::alloc::Global;

/// How many places a level has.
pub const PLACES: u64 = 32;

// A tally for each cell of each place.
const TALLIES: usize = 2_048;

/// Of the cells with one number that belong to a key: the merge of those that were found whole, and
/// whether one was busy.
#[derive(Clone, Copy, Debug, PartialEq, Eq)]
pub struct Tally {
    pub stat: Stat,
    pub busy: bool,
}

impl Tally {
    // Nothing was read.
    fn none() -> Tally
        ensures { result ≡ none_of }
    {
        Tally {
            stat: zero(),
            busy: false,
        }
    }

    // One more cell.
    fn add(self, seen: &Seen) -> Tally
        ensures { result ≡ added seen.now self }
    {
        match seen {
            Seen::Whole { content, .. } => Tally {
                stat: self.stat.merge(Stat::of_words(content)),
                busy: self.busy,
            },
            Seen::Busy { .. } => Tally {
                stat: self.stat,
                busy: true,
            },
            Seen::Free { .. } => self,
        }
    }
}

/// What a thread's info says, where it was found whole.
pub fn thread_at(infos: &[Option<Content>], thread: u64) -> Option<ThreadInfo>
    requires { thread < 32 }
    ensures { result ≡ thread_at infos.now thread }
{
    match info_at(infos, 1 + thread as usize) {
        Some(words) => Some(ThreadInfo::of_content(&words)),
        None => None,
    }
}

/// What an account's info says, where it was found whole.
pub fn account_at(infos: &[Option<Content>], account: u64) -> Option<AccountInfo>
    requires { account < 32 }
    ensures { result ≡ account_at infos.now account }
{
    match info_at(infos, 33 + account as usize) {
        Some(words) => Some(AccountInfo::of_content(&words)),
        None => None,
    }
}

fn account_of_thread(infos: &[Option<Content>], thread: u64) -> Option<u64>
    requires { thread < 32 }
    ensures { result ≡ account_of_thread infos.now thread }
{
    match thread_at(infos, thread) {
        Some(info) => info.account,
        None => None,
    }
}

fn user_of_thread(infos: &[Option<Content>], thread: u64) -> Option<u64>
    requires { thread < 32 }
    ensures { result ≡ user_of_thread infos.now thread }
{
    match thread_at(infos, thread) {
        Some(info) => info.user,
        None => None,
    }
}

fn host_of_thread(infos: &[Option<Content>], thread: u64) -> Option<u64>
    requires { thread < 32 }
    ensures { result ≡ host_of_thread infos.now thread }
{
    match thread_at(infos, thread) {
        Some(info) => info.host,
        None => None,
    }
}

fn user_of_account(infos: &[Option<Content>], account: u64) -> Option<u64>
    requires { account < 32 }
    ensures { result ≡ user_of_account infos.now account }
{
    match account_at(infos, account) {
        Some(info) => info.user,
        None => None,
    }
}

fn host_of_account(infos: &[Option<Content>], account: u64) -> Option<u64>
    requires { account < 32 }
    ensures { result ≡ host_of_account infos.now account }
{
    match account_at(infos, account) {
        Some(info) => info.host,
        None => None,
    }
}

// Whose rows a cell belongs to.
fn key_of(which: SummaryTable, infos: &[Option<Content>], place: Place) -> Option<u64>
    requires { IsPlace place }
    ensures { result ≡ key_of which infos.now place }
{
    match place {
        Place::ThreadCell { thread, .. } => match which {
            SummaryTable::ByThread => Some(thread),
            SummaryTable::ByAccount => account_of_thread(infos, thread),
            SummaryTable::ByUser => user_of_thread(infos, thread),
            SummaryTable::ByHost => host_of_thread(infos, thread),
            SummaryTable::Global => Some(0),
        },
        Place::AccountCell { account, .. } => match which {
            SummaryTable::ByThread => None,
            SummaryTable::ByAccount => Some(account),
            SummaryTable::ByUser => user_of_account(infos, account),
            SummaryTable::ByHost => host_of_account(infos, account),
            SummaryTable::Global => Some(0),
        },
        Place::UserCell { user, .. } => match which {
            SummaryTable::ByUser => Some(user),
            _ => None,
        },
        Place::HostCell { host, .. } => match which {
            SummaryTable::ByHost => Some(host),
            SummaryTable::Global => Some(0),
            _ => None,
        },
        Place::GlobalCell(_) => match which {
            SummaryTable::Global => Some(0),
            _ => None,
        },
        _ => None,
    }
}

// Which of its level's cells a cell is.
fn cell_of(place: Place) -> u64
    requires { IsPlace place }
    ensures cell { result ≡ cell_of place }
    ensures below { result < 64 }
{
    match place {
        Place::ThreadCell { cell, .. }
        | Place::AccountCell { cell, .. }
        | Place::UserCell { cell, .. }
        | Place::HostCell { cell, .. }
        | Place::GlobalCell(cell) => cell,
        _ => 0,
    }
}

fn no_tallies(alloc: Global, count: usize) -> Result<Vec<Tally>, NoMemory>
    ensures { IfOk result (λ tallies. tallies.items ≡ replicate count none_of) }
{
    let mut tallies = Vec::with_capacity(alloc, count)?;
    for _number in 0..count {
        tallies.push(Tally::none())?;
    }
    Ok(tallies)
}

// Adds a cell to the tally of its number under a key.
fn add_cell(tallies: &mut [Tally], key: u64, cell: u64, seen: &Seen)
    requires length { length tallies.old ≡ 2048 }
    requires key { key < 32 }
    requires cell { cell < 64 }
    ensures { tallies.new
        ≡ slice_set tallies.old (64 * key + cell)
        (added seen.now (slice_index_or tallies.old (64 * key + cell) none_of)) }
{
    let at = (CELLS * key + cell) as usize;
    tallies[at] = tallies[at].add(seen);
}

// Takes what one reading found.
fn add_reading(
    tallies: &mut [Tally],
    which: SummaryTable,
    infos: &[Option<Content>],
    reading: &Reading,
)
    requires { length tallies.old ≡ 2048 }
    ensures { tallies.new ≡ with_cell which infos.now reading.now tallies.old }
{
    let Reading::Slot { row, seen } = reading else {
        return;
    };
    let Some(place) = place_of(*row) else {
        return;
    };
    let Some(key) = key_of(which, infos, place) else {
        return;
    };
    if key < PLACES {
        add_cell(tallies, key, cell_of(place), seen);
    }
}

/// What the cells of each key have counted.
pub fn tallies_of(
    alloc: Global,
    which: SummaryTable,
    infos: &[Option<Content>],
    readings: &[Reading],
) -> Result<Vec<Tally>, NoMemory>
    ensures { IfOk result (λ tallies. AreTallies which infos.now readings.now tallies.items) }
{
    laws::rows();
    let mut tallies = no_tallies(alloc, TALLIES)?;
    for reading in readings {
        add_reading(&mut tallies, which, infos, reading);
    }
    Ok(tallies)
}

fn is_busy(seen: &Seen) -> bool
    ensures { result ≡ is_busy seen.now }
{
    match seen {
        Seen::Busy { .. } => true,
        Seen::Whole { .. } | Seen::Free { .. } => false,
    }
}

// Whether the place is an info that hides a table's rows where it was busy.
fn hides_rows(which: SummaryTable, place: Option<Place>) -> bool
    ensures { result ≡ hides_rows which place }
{
    match place {
        Some(Place::ThreadInfo(_)) | Some(Place::AccountInfo(_)) => match which {
            SummaryTable::ByThread => false,
            _ => true,
        },
        Some(Place::HostInfo(_)) => match which {
            SummaryTable::Global => true,
            _ => false,
        },
        _ => false,
    }
}

fn is_hidden_by(which: SummaryTable, reading: &Reading) -> bool
    ensures { result ≡ is_hidden_by which reading.now }
{
    match reading {
        Reading::Slot { row, seen } => hides_rows(which, place_of(*row)) && is_busy(seen),
        Reading::Word { .. } => false,
    }
}

/// Whether a busy info leaves the table without rows.
pub fn is_hidden(which: SummaryTable, readings: &[Reading]) -> bool
    ensures { result ≡ list_any (is_hidden_by which) readings.now }
{
    readings.iter().any(|reading| is_hidden_by(which, reading))
}
