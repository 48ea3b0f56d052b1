//! What a session's steps tell of its events is what the script says of them.

ghost use Rattle.pfs_law_plain.specs.LineDeeds.{SessionLaw};
ghost use Rattle.pfs_law_plain.specs.Tracks.{FirstLaw, LineLaw};

/// Before its first line a session is as no lines make it.
pub fn first()
    ensures { FirstLaw }
{}

/// At each line the steps that it asks for start and end just the events that the script's brackets start and end there,
/// with their clocks, how long they took, and their numbers; and behind it the session has open what is open there.
pub fn line()
    ensures { LineLaw }
{}

/// Where a session's parts do the lines of a script, its steps tell just the facts of the events of these lines: through
/// all its phases, and among any other sessions.
pub fn session()
    ensures { SessionLaw }
{}
