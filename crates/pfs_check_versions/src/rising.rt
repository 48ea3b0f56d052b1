//! Numbers that rise along each session.

ghost use Rattle.std.specs.Prelude.{ℕ, ◌≡◌, ◌==◌, cond, IfOk, OnOk};
ghost use Rattle.std.specs.Ordering.{nat_cmp};
ghost use Rattle.std.specs.BTreeMap.{get};
ghost use Rattle.pfs_check_versions.specs.RisingTests.{AreRisen, above_test};

use crate::NoMemory;
use crate::changes::PlacedChange;
use std::alloc::Global;
use std::collections::BTreeMap;

fn is_above(lasts: &BTreeMap<u64, u64>, session: u64, number: u64) -> bool
    ensures { result ≡ above_test (get nat_cmp lasts.now session) number }
{
    match lasts.get(&session) {
        Some(last) => *last < number,
        None => true,
    }
}

// Keeps a session's last number.
fn keep_last(lasts: &mut BTreeMap<u64, u64>, session: u64, number: u64) -> Result<(), NoMemory>
    ensures { OnOk result ((other : ℕ) → get nat_cmp lasts.new other
        ≡ cond (session == other) (Some number) (get nat_cmp lasts.old other)) }
{
    lasts.insert(session, number)?;
    Ok(())
}

/// The place of the first change whose version isn't above those that its session has before it, or the one behind the
/// last.
pub(crate) fn first_fall(alloc: Global, changes: &[PlacedChange]) -> Result<usize, NoMemory>
    ensures { IfOk result (AreRisen changes.now) }
{
    let mut lasts = BTreeMap::new(alloc);
    for place in 0..changes.len() {
        let one = changes[place];
        if !is_above(&lasts, one.session, one.change.version) {
            return Ok(place);
        }
        keep_last(&mut lasts, one.session, one.change.version)?;
    }
    Ok(changes.len())
}
