//! The targets of a read set, one after another.

ghost use Rattle.std.specs.Prelude.{◌≡◌, ◌<◌, ◌≤◌, ◌+◌, ℕ, false, true, MatchOption, if◌then◌else◌, slice_index_or, ◌&&◌, ◌||◌, ◌==◌, nat_le, nat_lt, ◌-◌, length};

use crate::Target;
use crate::places::{
    CELLS, cells_of, has_accounts, has_hosts, has_long, has_ring, has_threads, has_users,
    is_digest, is_global,
};
use pfs_classes::Setting;
use pfs_rows::{
    LONG_PLACES, Place, RING_PLACES, ROWS, Reading, Seen, THREAD_CELLS, Table, WORDS, laws,
    place_of,
};

// The infos stand before the cells.
const INFO_ROWS: usize = THREAD_CELLS as usize;

/// The read set of a table, which tells its targets one after another: first rows, then switch
/// words, each ascending. Which cells, ring places and words come depends on the infos that were
/// Whole, so each reading is to be noted before the next target is asked for. It takes no memory.
#[derive(Clone, Copy, Debug)]
pub struct ReadSet {
    table: Table,
    cells: [bool; CELLS],
    classes: u64,
    digests: u64,
    // By row: the info was found Whole.
    whole: [bool; INFO_ROWS],
    // The next target is not below these.
    row: u64,
    word: u64,
}

impl ReadSet {
    ghost use Rattle.std.specs.Prelude.{List, [], ◌∷◌, ◌++◌};
    ghost use Rattle.pfs_rows.specs.declared.place.Place.{Place};
    ghost use Rattle.pfs_rows.specs.declared.table.Table.{Table};
    ghost use Rattle.pfs_rows.specs.declared.table.Reading.{Reading};
    ghost use Rattle.pfs_readsets.specs.TablePlaces.{Scope, scope_of, reads};
    ghost use Rattle.pfs_readsets.specs.ReadSets.{IsNext, IsReadSet, target_of};
    ghost use Rattle.pfs_readsets.specs.ReadProgress.{Reached, own_rows, own_words, FirstPassing, behind_row, behind_word};

    /// The read set of the table, before its first reading. It takes of the setting which classes
    /// are registered and how many digest texts have a place.
    pub fn open(setting: &Setting, table: Table) -> ReadSet
        ensures { Reached result (scope_of setting.now) table [] }
    {
        ReadSet {
            table,
            cells: cells_of(setting, table),
            classes: setting.classes.count(),
            digests: setting.digests.as_slice().len() as u64,
            whole: none_whole(),
            row: 0,
            word: 0,
        }
    }

    /// The next target; none exactly where the readings that were noted are the whole read set.
    pub fn target(&self) -> Option<Target>
        ensures { (scope : Scope) (table : Table) (readings : List Reading) → Reached self.now scope table readings
            → MatchOption result (IsReadSet scope table readings) (IsNext scope table readings) }
    {
        laws::rows();
        match self.next_row() {
            Some(row) => Some(Target::Row(row)),
            None => match self.next_word() {
                Some(word) => Some(Target::Word(word)),
                None => None,
            },
        }
    }

    /// Notes the reading of the next target.
    pub fn note(&mut self, reading: &Reading)
        ensures { (scope : Scope) (table : Table) (readings : List Reading) → Reached self.old scope table readings
            → IsNext scope table readings (target_of reading.now)
            → Reached self.new scope table (readings ++ reading.now ∷ []) }
    {
        laws::rows();
        match reading {
            Reading::Slot { row, seen } => self.note_row(*row, seen),
            Reading::Word { word, .. } => self.note_word(*word),
        }
    }

    // Whether the place is one to read, by what was noted.
    fn reads(&self, place: Place) -> bool
        ensures { result ≡ reads self.now.table (λ cell. slice_index_or self.now.cells cell false) self.now.digests
            (λ row. slice_index_or self.now.whole row false) place }
    {
        let table = self.table;
        match place {
            Place::Admin => false,
            Place::ThreadInfo(_) => has_threads(table),
            Place::AccountInfo(_) => has_accounts(table),
            Place::UserInfo(_) => has_users(table),
            Place::HostInfo(_) => has_hosts(table),
            Place::ThreadCell { thread, cell } => has_threads(table) && self.opens(1, thread, cell),
            Place::AccountCell { account, cell } => has_accounts(table)
                && self.opens(33, account, cell),
            Place::UserCell { user, cell } => has_users(table) && self.opens(65, user, cell),
            Place::HostCell { host, cell } => has_hosts(table) && self.opens(97, host, cell),
            Place::GlobalCell(cell) => is_global(table) && flag_at(&self.cells, cell),
            Place::DigestNull => is_digest(table),
            Place::Digest(digest) => is_digest(table) && digest < self.digests,
            Place::Ring { thread, place } => has_ring(table, place) && self.was_whole(1, thread),
            Place::Long { kind, .. } => has_long(table, kind),
        }
    }

    // Whether the info of this place in a level, whose infos begin at the row, was Whole and the
    // table has the cell.
    fn opens(&self, infos: u64, place: u64, cell: u64) -> bool
        requires { infos < 129 }
        ensures { result ≡ (slice_index_or self.now.whole (infos + place) false
            && slice_index_or self.now.cells cell false) }
    {
        self.was_whole(infos, place) && flag_at(&self.cells, cell)
    }

    fn was_whole(&self, infos: u64, place: u64) -> bool
        requires { infos < 129 }
        ensures { result ≡ slice_index_or self.now.whole (infos + place) false }
    {
        place < INFO_ROWS as u64 && flag_at(&self.whole, infos + place)
    }

    fn reads_row(&self, row: u64) -> bool
        ensures { result ≡ own_rows self.now row }
    {
        match place_of(row) {
            Some(place) => self.reads(place),
            None => false,
        }
    }

    fn reads_word(&self, word: u64) -> bool
        ensures { result ≡ own_words self.now word }
    {
        match self.table {
            Table::SetupInstruments => is_class_word(word, self.classes),
            Table::SetupConsumers => word == 0,
            Table::Threads => 1 <= word && word < 33 && flag_at(&self.whole, word),
            _ => false,
        }
    }

    // How many rows from this one on, which the table doesn't read, it passes over: also those behind it that hang
    // on the same info, which wasn't Whole, or lie in the same long history of another kind.
    fn passes_over(&self, row: u64) -> u64
        requires row { row < 14242 }
        requires fails { own_rows self.now row ≡ false }
        ensures some { 0 < result }
        ensures within { row + result ≤ 14242 }
        ensures none { (number : ℕ) → row ≤ number → number < row + result → own_rows self.now number ≡ false }
    {
        laws::rows();
        let table = self.table;
        match place_of(row) {
            Some(Place::ThreadCell { thread, cell }) => {
                rest_of(
                    has_threads(table) && self.was_whole(1, thread),
                    cell,
                    CELLS as u64,
                )
            }
            Some(Place::AccountCell { account, cell }) => {
                rest_of(
                    has_accounts(table) && self.was_whole(33, account),
                    cell,
                    CELLS as u64,
                )
            }
            Some(Place::UserCell { user, cell }) => {
                rest_of(
                    has_users(table) && self.was_whole(65, user),
                    cell,
                    CELLS as u64,
                )
            }
            Some(Place::HostCell { host, cell }) => {
                rest_of(
                    has_hosts(table) && self.was_whole(97, host),
                    cell,
                    CELLS as u64,
                )
            }
            Some(Place::Ring { thread, place }) => {
                rest_of(self.was_whole(1, thread), place, RING_PLACES)
            }
            Some(Place::Long { kind, place }) => rest_of(has_long(table, kind), place, LONG_PLACES),
            _ => 1,
        }
    }

    fn next_row(&self) -> Option<u64>
        ensures { FirstPassing (own_rows self.now) self.now.row (14242 - self.now.row) result }
    {
        let mut row = self.row;
        while row < ROWS {
            if self.reads_row(row) {
                return Some(row);
            }
            row += self.passes_over(row);
        }
        None
    }

    fn next_word(&self) -> Option<u64>
        ensures { FirstPassing (own_words self.now) self.now.word (160 - self.now.word) result }
    {
        for word in self.word..WORDS {
            if self.reads_word(word) {
                return Some(word);
            }
        }
        None
    }

    fn note_row(&mut self, row: u64, seen: &Seen)
        ensures { row < 14242 → self.new ≡ behind_row self.old row seen.now }
    {
        if row < ROWS {
            self.row = row + 1;
            if row < INFO_ROWS as u64 && matches!(seen, Seen::Whole { .. }) {
                self.whole[row as usize] = true;
            }
        }
    }

    fn note_word(&mut self, word: u64)
        ensures { word < 160 → self.new ≡ behind_word self.old word }
    {
        if word < WORDS {
            self.row = ROWS;
            self.word = word + 1;
        }
    }
}

// One of a group so wide where it is open, else all from this one on.
fn rest_of(is_open: bool, at: u64, width: u64) -> u64
    requires { at < width }
    ensures { result ≡ (if is_open then 1 else width - at) }
{
    if is_open { 1 } else { width - at }
}

// No info was found Whole.
fn none_whole() -> [bool; INFO_ROWS]
    ensures none { (row : ℕ) → slice_index_or result row false ≡ false }
    ensures long { length result ≡ 129 }
{
    [false; INFO_ROWS]
}

// The flag at a place, false past the last.
fn flag_at(flags: &[bool], at: u64) -> bool
    ensures { result ≡ slice_index_or flags.now at false }
{
    flags.get(at as usize).copied().unwrap_or(false)
}

// The word of a class: of one registered beside `transaction`, or of `transaction`, whose id is 62.
fn is_class_word(word: u64, classes: u64) -> bool
    ensures { result ≡ ((nat_le 33 word && nat_lt word (33 + classes)) || (word == 95)) }
{
    33 <= word && word - 33 < classes || word == 95
}
