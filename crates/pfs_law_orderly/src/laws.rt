//! Laws of the definitions.

ghost use Rattle.pfs_law_orderly.specs.HadVersions.{HadLaw};
ghost use Rattle.pfs_law_orderly.specs.HeldEvents.{HeldLaw};
ghost use Rattle.pfs_law_orderly.specs.RuledChanges.{OrderlyLaw};

/// The changes of a report that keeps the rules of its actions, its rows and its floors are orderly.
pub fn orderly()
    ensures { OrderlyLaw }
{
    pfs_law_replay::laws::earlier();
}

/// A version of a row that is no greater than its number of changes up to a phase's end is one that it had.
pub fn shelved()
    ensures { HadLaw }
{}

/// What an entry's session holds there is what its entries before it say.
pub fn held()
    ensures { HeldLaw }
{}
