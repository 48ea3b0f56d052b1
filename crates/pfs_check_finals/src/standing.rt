//! What stands at the ends of phases, and a table that is read of it.

ghost use Rattle.std.specs.Prelude.{◌≡◌, ℕ, All, IfOk};
ghost use Rattle.pfs_readsets.specs.ReadSets.{IsReadSet, target_of};
ghost use Rattle.pfs_readsets.specs.TablePlaces.{scope_of};
ghost use Rattle.pfs_readsets.specs.declared.target.Target.{Target};
ghost use Rattle.pfs_rows.specs.declared.table.Reading.{Reading};

use crate::NoMemory;
use pfs_classes::Setting;
use pfs_readsets::{ReadSet, Target};
use pfs_rows::{Reading, Table};
use std::alloc::Global;

/// Who knows what each row and each switch word shows at the end of each phase.
pub trait Standing {
    /// At the end of the phase of a number it shows this.
    ghost stands: { Self → (ℕ → Target → Reading) → Type 0 };

    /// What a row, or a word, shows at the end of the phase of this number.
    fn reading(&self, phase: u64, target: Target) -> Reading
        ensures target { target_of result ≡ target }
        ensures shown { (shown : ℕ → Target → Reading) → stands self.now shown → result ≡ shown phase target };
}

/// The readings of a table's read set at the end of the phase of this number. Err where memory runs out.
pub(crate) fn read_standing<S: Standing>(
    alloc: Global,
    setting: &Setting,
    table: Table,
    phase: u64,
    standing: &S,
) -> Result<Vec<Reading>, NoMemory>
    ensures whole { IfOk result (λ readings. IsReadSet (scope_of setting.now) table readings.items) }
    ensures each { (shown : ℕ → Target → Reading) → S.stands standing.now shown
        → IfOk result (λ readings. All (λ reading. reading ≡ shown phase (target_of reading)) readings.items) }
{
    let mut set = ReadSet::open(setting, table);
    let mut readings = Vec::new(alloc);
    while let Some(target) = set.target() {
        let reading = standing.reading(phase, target);
        set.note(&reading);
        readings.push(reading)?;
    }
    Ok(readings)
}
