//! Laws of the definitions.

ghost use Rattle.pfs_check_contents.specs.HeldEvents.{AddLaw};
ghost use Rattle.pfs_check_contents.specs.PlacedChanges.{ShelvedLaw};

/// What was replayed of all changes of some entries has their contents, and there are no others.
pub fn shelved()
    ensures { ShelvedLaw }
{
    pfs_law_replay::laws::whole();
}

/// An addition adds the event that has just ended, and all that its session holds for the row.
pub fn added()
    ensures { AddLaw }
{
    pfs_stat::laws::merge();
}
