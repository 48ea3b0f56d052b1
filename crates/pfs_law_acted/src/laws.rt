//! Laws of the definitions.

ghost use Rattle.pfs_law_acted.specs.ActedParts.{ActedLaw, IdleLaw};

/// Where the journals have their shape and each action has its own number, all that an action does are its other
/// changes, and then its sets.
pub fn acted()
    ensures { ActedLaw }
{}

/// And an action whose number no entry says has no entries.
pub fn idle()
    ensures { IdleLaw }
{}
