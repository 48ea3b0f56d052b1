//! Laws of the definitions.

ghost use Rattle.pfs_check_falls.specs.FallenDeeds.{FallLaw};

/// The numbers of actions never fall along a row exactly where no deed is by an action of a lower number than its
/// immediate predecessor's.
pub fn falls()
    ensures { FallLaw }
{}
