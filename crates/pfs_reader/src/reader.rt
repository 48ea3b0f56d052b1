//! The readings of a table's read set, one after another.

ghost use Rattle.std.specs.Prelude.{◌≡◌, ◌∷◌, [], ◌++◌, ℕ, List, map, MatchOption, IfOk, OnErr};
ghost use Rattle.std.specs.Option.{option_to_list};
ghost use Rattle.pfs_rows.specs.declared.table.Table.{Table};
ghost use Rattle.pfs_rows.specs.declared.table.Reading.{Reading};
ghost use Rattle.pfs_levels.specs.Calls.{Goes};
ghost use Rattle.pfs_levels.specs.Views.{Same};
ghost use Rattle.pfs_readsets.specs.TablePlaces.{Scope, scope_of};
ghost use Rattle.pfs_readsets.specs.ReadSets.{IsNext, IsReadSet, target_of};
ghost use Rattle.pfs_readsets.specs.ReadProgress.{Reached};
ghost use Rattle.pfs_reader.specs.Readings.{call_of, calls_of, IsThere, HoldsNone, IsFront};

use crate::{NoMemory, ReadingList};
use pfs_classes::Setting;
use pfs_levels::Readable;
use pfs_readsets::{ReadSet, Target};
use pfs_rows::{Reading, Table};
use std::alloc::Global;
use std::marker::Model;

/// A reader of a table: it makes the readings of the table's read set one after another. Contracts see it as the read
/// set, and `Reached` says by which readings it came where it is. It takes no memory.
#[derive(Drop)]
pub struct Reader {
    set: ReadSet,
}

impl Model for Reader {
    ghost use Rattle.pfs_readsets.specs.declared.read_set.ReadSet.{ReadSet};
    ghost use Rattle.pfs_reader.specs.Readings.{IsReading};

    ghost Value = { ReadSet };

    ghost view = { λ reader. reader.set };

    ghost invariant = { λ reader. IsReading reader.set };
}

impl Reader {
    /// A reader of the table, before its first reading.
    pub fn open(setting: &Setting, table: Table) -> Reader
        ensures { Reached result (scope_of setting.now) table [] }
    {
        Reader {
            set: ReadSet::open(setting, table),
        }
    }

    /// The next reading of the read set, by one call of the store: a row as it was found, or a switch word with its
    /// version and flags. None exactly where the readings so far are the whole read set; then the store isn't called.
    pub fn next<R: Readable>(&mut self, rows: &mut R) -> Option<Reading>
        requires away { HoldsNone (R.seen rows.old).hand }
        ensures next { (scope : Scope) (table : Table) (readings : List Reading)
            → Reached self.old scope table readings
            → MatchOption result (IsReadSet scope table readings)
            (λ reading. IsNext scope table readings (target_of reading)) }
        ensures reached { (scope : Scope) (table : Table) (readings : List Reading)
            → Reached self.old scope table readings
            → Reached self.new scope table (readings ++ option_to_list result) }
        ensures call { Goes (R.seen rows.old).reached (R.seen rows.new).reached (map call_of (option_to_list result)) }
        ensures kept { Same (R.seen rows.old) (R.seen rows.new) }
    {
        match self.set.target() {
            Some(target) => {
                let reading = read_target(rows, target);
                self.set.note(&reading);
                Some(reading)
            }
            None => None,
        }
    }
}

// Reads a row, or loads a word.
fn read_target<R: Readable>(rows: &mut R, target: Target) -> Reading
    requires there { IsThere target }
    requires away { HoldsNone (R.seen rows.old).hand }
    ensures target { target_of result ≡ target }
    ensures call { Goes (R.seen rows.old).reached (R.seen rows.new).reached (call_of result ∷ []) }
    ensures kept { Same (R.seen rows.old) (R.seen rows.new) }
{
    match target {
        Target::Row(row) => {
            let seen = rows.read(row);
            Reading::Slot { row, seen }
        }
        Target::Word(word) => {
            let (version, flags) = rows.load(word);
            Reading::Word {
                word,
                version,
                flags,
            }
        }
    }
}

/// All readings of a table's read set, each by one call of the store, in their order. Out of memory some of the
/// first were made, and no others.
pub fn read_table<R: Readable>(
    alloc: Global,
    setting: &Setting,
    table: Table,
    rows: &mut R,
) -> Result<ReadingList, NoMemory>
    requires away { HoldsNone (R.seen rows.old).hand }
    ensures read { IfOk result (λ readings. IsReadSet (scope_of setting.now) table readings) }
    ensures calls { IfOk result (λ readings. Goes (R.seen rows.old).reached (R.seen rows.new).reached
        (calls_of readings)) }
    ensures front { OnErr result ((readings : List Reading) × IsFront (scope_of setting.now) table readings
        × Goes (R.seen rows.old).reached (R.seen rows.new).reached (calls_of readings)) }
    ensures kept { Same (R.seen rows.old) (R.seen rows.new) }
{
    let mut reader = Reader::open(setting, table);
    let mut readings = Vec::new(alloc);
    while let Some(reading) = reader.next(rows) {
        readings.push(reading)?;
    }
    Ok(ReadingList::new(readings))
}
