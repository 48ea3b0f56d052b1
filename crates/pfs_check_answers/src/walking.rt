//! The entries of a SELECT against the read set of its table.

ghost use Rattle.std.specs.Prelude.{ℕ, List, All, IfOk};
ghost use Rattle.pfs_model.specs.EntryPlaces.{Placed};
ghost use Rattle.pfs_readsets.specs.TablePlaces.{scope_of};
ghost use Rattle.pfs_check_answers.specs.SelectReadings.{AreShown, AreWalked, NamesHad};

use crate::NoMemory;
use crate::readings::reading_of;
use crate::versions::Versions;
use pfs_classes::Setting;
use pfs_event::Entry;
use pfs_readsets::ReadSet;
use pfs_rows::{Reading, Table};
use std::alloc::Global;

/// The entries between a SELECT's first and its last.
#[derive(Drop)]
pub(crate) enum Walked {
    /// They are these readings, the table's read set.
    Whole(Vec<Reading>),
    /// The place of the first that isn't the next reading, counted from 0; behind the last where one is missing.
    Misread(usize),
}

/// How they go with the table's read set. Err where memory runs out.
pub(crate) fn walk_entries<V: Versions>(
    alloc: Global,
    setting: &Setting,
    versions: &V,
    table: Table,
    entries: &[Entry],
) -> Result<Walked, NoMemory>
    ensures walked { IfOk result (AreWalked (scope_of setting.now) table entries.now) }
    ensures shown { (all : List Placed) → (content : ℕ → ℕ → List ℕ) → (flags : ℕ → ℕ → ℕ)
        → V.knows versions.now all content flags → All (NamesHad all) entries.now
        → IfOk result (AreShown content flags) }
{
    pfs_rows::laws::rows();
    let mut set = ReadSet::open(setting, table);
    let mut readings = Vec::new(alloc);
    for (at, entry) in entries.iter().enumerate() {
        let Some(target) = set.target() else {
            return Ok(Walked::Misread(at));
        };
        let Some(reading) = reading_of(versions, target, entry) else {
            return Ok(Walked::Misread(at));
        };
        set.note(&reading);
        readings.push(reading)?;
    }
    match set.target() {
        Some(_) => Ok(Walked::Misread(entries.len())),
        None => Ok(Walked::Whole(readings)),
    }
}
