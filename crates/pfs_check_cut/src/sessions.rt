//! What the blocks so far tell of each session.

ghost use Rattle.std.specs.Prelude.{ℕ, ◌≡◌, ◌==◌, false, cond, OnOk};
ghost use Rattle.pfs_check_cut.specs.Sessions.{trail_at};

use crate::NoMemory;
use pfs_check_trail::Trail;
use std::alloc::Global;
use std::collections::BTreeMap;

/// Takes out what the blocks so far tell of a session; nothing, before its first.
pub(crate) fn take_trail(alloc: Global, trails: &mut BTreeMap<u64, Trail>, session: u64) -> Trail
    ensures own { result ≡ trail_at trails.old session }
    ensures others { (other : ℕ) → (session == other) ≡ false
        → trail_at trails.new other ≡ trail_at trails.old other }
{
    match trails.remove(&session) {
        Some(trail) => trail,
        None => Trail::new(alloc),
    }
}

/// Keeps what they tell of it now.
pub(crate) fn keep_trail(
    trails: &mut BTreeMap<u64, Trail>,
    session: u64,
    trail: Trail,
) -> Result<(), NoMemory>
    ensures { OnOk result ((other : ℕ) → trail_at trails.new other
        ≡ cond (session == other) trail (trail_at trails.old other)) }
{
    trails.insert(session, trail)?;
    Ok(())
}
