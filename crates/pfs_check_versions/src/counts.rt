//! How often keys were counted, and how many changes rows have up to a phase.

ghost use Rattle.std.specs.Prelude.{ℕ, ◌≡◌, ◌+◌, ◌≤◌, ◌==◌, cond, length, take, IfOk, OnOk};
ghost use Rattle.pfs_model.specs.Chains.{Each};
ghost use Rattle.pfs_check_versions.specs.LinkTests.{AreCounted, IsBy, IsCountedTo, count_in};
ghost use Rattle.pfs_check_versions.specs.PlacedChanges.{AreInOrder};

use crate::NoMemory;
use crate::changes::PlacedChange;
use crate::line_counts::plus;
use std::collections::BTreeMap;

/// How often a key was counted.
pub(crate) fn count_in(counts: &BTreeMap<u64, u64>, key: u64) -> u64
    ensures { result ≡ count_in counts.now key }
{
    counts.get(&key).copied().unwrap_or(0)
}

/// Counts a key once more, and tells how often it is counted now.
pub(crate) fn count_one(counts: &mut BTreeMap<u64, u64>, key: u64) -> Result<u64, NoMemory>
    ensures now { IfOk result (λ count. count ≡ count_in counts.old key + 1) }
    ensures each { OnOk result ((other : ℕ) → count_in counts.new other
        ≡ cond (key == other) (count_in counts.old other + 1) (count_in counts.old other)) }
{
    let count = plus(count_in(counts, key), 1)?;
    counts.insert(key, count)?;
    Ok(count)
}

/// Counts the rows of the changes up to a phase, behind those that are counted already; with the place behind them.
pub(crate) fn count_to(
    counts: &mut BTreeMap<u64, u64>,
    changes: &[PlacedChange],
    from: usize,
    phase: u64,
) -> Result<usize, NoMemory>
    requires order { AreInOrder 0 changes.now }
    requires within { from ≤ length changes.now }
    requires counted { AreCounted counts.old (take from changes.now) }
    requires low { Each (IsBy phase) (take from changes.now) }
    ensures { IfOk result (IsCountedTo counts.new changes.now phase) }
{
    for place in from..changes.len() {
        let one = changes[place];
        if one.phase > phase {
            return Ok(place);
        }
        count_one(counts, one.change.row)?;
    }
    Ok(changes.len())
}
