//! The chain of changes, change by change.

ghost use Rattle.std.specs.Prelude.{ℕ, ◌≡◌, cond, is_some, IfOk, OnOk};
ghost use Rattle.std.specs.BTreeMap.{get};
ghost use Rattle.pfs_model.specs.declared.changes.Change.{Change};
ghost use Rattle.pfs_model.specs.Chains.{is_that};
ghost use Rattle.pfs_check_versions.specs.LinkTests.{AreLinked, change_cmp, count_in, link_test, made_of};
ghost use Rattle.pfs_check_versions.specs.PlacedChanges.{AreInOrder};

use crate::NoMemory;
use crate::changes::{Made, PlacedChange};
use crate::counts::{count_in, count_to};
use pfs_model::Change;
use std::alloc::Global;
use std::collections::BTreeMap;

/// So many changes that are each linked, in the order of the report, and where each stands.
#[derive(Debug, Drop)]
pub(crate) struct Links {
    /// The place of the first that isn't, or the one behind the last.
    pub place: usize,
    pub made: BTreeMap<Change, Made>,
}

// Keeps where a change stands.
fn mark(made: &mut BTreeMap<Change, Made>, one: PlacedChange) -> Result<(), NoMemory>
    ensures { OnOk result ((change : Change) → get change_cmp made.new change
        ≡ cond (is_that change one.change) (Some (made_of one)) (get change_cmp made.old change)) }
{
    made.insert(
        one.change,
        Made {
            line: one.line,
            phase: one.phase,
            session: one.session,
        },
    )?;
    Ok(())
}

fn is_made(made: &BTreeMap<Change, Made>, change: Change) -> bool
    ensures { result ≡ is_some (get change_cmp made.now change) }
{
    made.get(&change).is_some()
}

// Whether the version is one that the change may have, where so many rows are counted and these changes stand before.
fn is_linked(counts: &BTreeMap<u64, u64>, made: &BTreeMap<Change, Made>, change: Change) -> bool
    ensures { result ≡ link_test (count_in counts.now change.row) (is_some (get change_cmp made.now change))
        change.version }
{
    change.version > 0 && change.version <= count_in(counts, change.row) && !is_made(made, change)
}

/// Links the changes from the first on, as far as each has a version that it may have: from 1 to as many as its row has
/// changes up to the end of its phase, and given by none before it.
pub(crate) fn link(alloc: Global, changes: &[PlacedChange]) -> Result<Links, NoMemory>
    requires { AreInOrder 0 changes.now }
    ensures { IfOk result (AreLinked changes.now) }
{
    let mut counts = BTreeMap::new(alloc);
    let mut made = BTreeMap::new(alloc);
    let mut next = 0;
    for place in 0..changes.len() {
        let one = changes[place];
        next = count_to(&mut counts, changes, next, one.phase)?;
        if !is_linked(&counts, &made, one.change) {
            return Ok(Links { place, made });
        }
        mark(&mut made, one)?;
    }
    Ok(Links {
        place: changes.len(),
        made,
    })
}
