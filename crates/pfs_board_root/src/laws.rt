//! Laws of the definitions.

ghost use Rattle.pfs_board_root.specs.Readings.{LastLaw};
ghost use Rattle.pfs_board_root.specs.Settlements.{BeganLaw};

/// What a root read while it was alone is of what stands, by the history that it is told behind its readings: a row
/// that it read whole was at its last version, and one that it found free was free at it.
pub fn last()
    ensures { LastLaw }
{}

/// An actor that was split off once the root had settled began behind that end: behind all changes that the root had,
/// with no word below the writer's, and it met the writer inside its actions alone.
pub fn began()
    ensures { BeganLaw }
{}
