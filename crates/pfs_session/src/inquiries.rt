//! What a session does at a text of SQL beside its changes.

ghost use Rattle.std.specs.Prelude.{◌≡◌, ◌≤◌, ◌+◌, ◌++◌, ◌∷◌, [], ℕ, List, MatchOption, map};
ghost use Rattle.std.specs.Option.{option_to_list};
ghost use Rattle.pfs_levels.specs.Views.{Used};
ghost use Rattle.pfs_reader.specs.Readings.{HoldsNone};
ghost use Rattle.pfs_readsets.specs.TablePlaces.{Scope};
ghost use Rattle.pfs_readsets.specs.ReadSets.{IsNext, IsReadSet, target_of};
ghost use Rattle.pfs_readsets.specs.ReadProgress.{Reached};
ghost use Rattle.pfs_rows.specs.declared.table.Reading.{Reading};
ghost use Rattle.pfs_rows.specs.declared.table.Table.{Table};
ghost use Rattle.pfs_session.specs.Inquiries.{Remarks, reading_entry, remark_entry, seen_entry};
ghost use Rattle.pfs_session.specs.Turns.{Played, Does, Inquires, looks_at};

use crate::remarks::Remark;
use crate::session::Session;
use pfs_event::Entry;
use pfs_levels::Rows;
use pfs_reader::Reader;
use pfs_rows::{Reading, Seen};

impl Session {
    /// The next reading of a table's read set, by one call of the store, as `Reader::next` makes it. The log gets what
    /// was found: a row at a version, that it was free, the two words that made it busy, or a word's version. None
    /// exactly at the end of the read set; then the store isn't called.
    pub fn look<R: Rows>(&mut self, rows: &mut R, reader: &mut Reader) -> Option<Reading>
        requires away { HoldsNone (R.seen rows.old).hand }
        requires room { 1 ≤ self.old.journal.room }
        ensures next { (scope : Scope) (table : Table) (readings : List Reading)
            → Reached reader.old scope table readings
            → MatchOption result (IsReadSet scope table readings)
            (λ reading. IsNext scope table readings (target_of reading)) }
        ensures reached { (scope : Scope) (table : Table) (readings : List Reading)
            → Reached reader.old scope table readings
            → Reached reader.new scope table (readings ++ option_to_list result) }
        ensures played { Played (looks_at result) self.old self.new (R.seen rows.old).reached
            (R.seen rows.new).reached }
        ensures state { self.new.state ≡ self.old.state }
        ensures used { Used 0 0 1 (R.seen rows.old) (R.seen rows.new) self.old.journal self.new.journal }
    {
        match reader.next(rows) {
            Some(reading) => {
                self.log.push(reading_entry(&reading));
                Some(reading)
            }
            None => None,
        }
    }

    /// Writes a remark: that a SELECT begins, how many rows answer it, or that the text is refused.
    pub fn append(&mut self, what: Remark)
        requires room { 1 ≤ self.old.journal.room }
        ensures does { Does self.old.state (Inquires (Remarks what)) [] (remark_entry what ∷ []) self.new.state }
        ensures state { self.new.state ≡ self.old.state }
        ensures entries { self.new.journal.entries ≡ self.old.journal.entries ++ remark_entry what ∷ [] }
        ensures room { self.old.journal.room ≤ self.new.journal.room + 1 }
    {
        self.log.push(remark_entry(what));
    }
}

fn reading_entry(reading: &Reading) -> Entry
    ensures { result ≡ reading_entry reading.now }
{
    match reading {
        Reading::Slot { row, seen } => seen_entry(*row, seen),
        Reading::Word { word, version, .. } => Entry::Saw {
            word: *word,
            version: *version,
        },
    }
}

fn seen_entry(row: u64, seen: &Seen) -> Entry
    ensures { result ≡ seen_entry row seen.now }
{
    match seen {
        Seen::Whole { version, .. } => Entry::Seen {
            row,
            version: *version,
        },
        Seen::Free { .. } => Entry::Vacant { row },
        Seen::Busy { first, second } => Entry::Busy {
            row,
            first: *first,
            second: *second,
        },
    }
}

fn remark_entry(what: Remark) -> Entry
    ensures { result ≡ remark_entry what }
{
    match what {
        Remark::Query => Entry::Query,
        Remark::Rows(number) => Entry::Rows { number },
        Remark::Refused(number) => Entry::Error { number },
    }
}
