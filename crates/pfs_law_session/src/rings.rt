//! The places of rings by number: where events are put, what tables of events show, and what is freed are the same
//! rows.

ghost use Rattle.pfs_law_session.specs.RingLayout.{LayoutLaw};

/// A table of events shows just the places that events of its kind are put to, its TRUNCATE frees just these, and a
/// quit frees those of its thread's current places and histories, and no others.
pub fn one_layout()
    ensures { LayoutLaw }
{}
