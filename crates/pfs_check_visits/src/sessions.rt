//! A track for each session.

ghost use Rattle.std.specs.Prelude.{ℕ, ◌≡◌, ◌==◌, false, cond, OnOk};
ghost use Rattle.pfs_check_cut.specs.Sessions.{trail_at};

use crate::NoMemory;
use crate::tracks::SessionTrack;
use std::alloc::Global;
use std::collections::BTreeMap;

/// Takes out the track of a session; that of one that has done nothing, before its first block.
pub(crate) fn take_track(
    alloc: Global,
    tracks: &mut BTreeMap<u64, SessionTrack>,
    session: u64,
) -> SessionTrack
    ensures own { result ≡ trail_at tracks.old session }
    ensures others { (other : ℕ) → (session == other) ≡ false
        → trail_at tracks.new other ≡ trail_at tracks.old other }
{
    match tracks.remove(&session) {
        Some(track) => track,
        None => SessionTrack::new(alloc),
    }
}

/// Keeps it while others are walked.
pub(crate) fn keep_track(
    tracks: &mut BTreeMap<u64, SessionTrack>,
    session: u64,
    track: SessionTrack,
) -> Result<(), NoMemory>
    ensures { OnOk result ((other : ℕ) → trail_at tracks.new other
        ≡ cond (session == other) track (trail_at tracks.old other)) }
{
    tracks.insert(session, track)?;
    Ok(())
}
