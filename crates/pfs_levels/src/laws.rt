//! Laws of the definitions.

ghost use Rattle.pfs_levels.specs.Flushes.{FlushesAscend};
ghost use Rattle.pfs_levels.specs.CallOrder.{LoadsAfterMeet};
ghost use Rattle.pfs_levels.specs.PlainCalls.{JointLaw, OrderLaw, SinceLaw};

/// The rows that a flush takes ascend, and none comes twice, since its places and cells do.
pub fn flushes_ascend()
    ensures { FlushesAscend }
{}

/// A load behind a meet with the writer of the words is at no version of its word below the one that was met.
pub fn loads_after_a_meet()
    ensures { LoadsAfterMeet }
{}

/// The calls that actors made of a plain store one after another have one order of changes, of sets of words, of
/// tickets and of actions, and none is below what earlier actors left.
pub fn plain_calls_are_ordered()
    ensures joint { JointLaw }
    ensures ordered { OrderLaw }
    ensures since { SinceLaw }
{}
