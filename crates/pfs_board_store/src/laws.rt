//! Laws of the definitions.

ghost use Rattle.pfs_board_store.specs.RootActors.{ChangedLaw, GatherLaw};
ghost use Rattle.pfs_board_store.specs.ActorPhases.{SinceLaw};
ghost use Rattle.pfs_board_store.specs.RootLaws.{JointLaw, MeetLaw, OpenedLaw, OrderLaw};

/// The seats that a root takes in leave their actors' calls tied to what the root has: each actor's changes, loads,
/// meets and tickets are a part of its lists, one actor after another, and what their calls showed is among its
/// reads, sights and labels.
pub fn gathered()
    ensures { GatherLaw }
{}

/// A root that meets the writer of the words itself, as at the end of a phase, stays gathered: its meet is the one call
/// of an actor more.
pub fn met()
    ensures { MeetLaw }
{}

/// What a root knows that is alone and has taken in the seats of all actors: their publications and releases have one
/// order, in which each publication has its row's next version and each call's change stands once; the actions'
/// numbers are 1, 2 and so on, and never fall along a row; and each actor's calls rise.
pub fn changed()
    ensures { ChangedLaw }
{}

/// A board that opens with the 14,242 rows of a run is one of which `joint` and `ordered` speak.
pub fn opened()
    ensures { OpenedLaw }
{}

/// What a root knows that is alone, has taken in the seats of all actors, meets the writer of the words and has told
/// the tickets: one order of all changes, one of all sets and one of all tickets, and of each call that what it found
/// and left is the content of the row, or the flags of the word, at its version. Of the sets it is asked that those
/// that the writer made are the actors'.
pub fn joint()
    ensures { JointLaw }
{}

/// What a root knows that is alone, holds no row, has taken in the seats of all actors and meets the writer of the
/// words, of the order of their calls: the numbers of the actions, that no call is below what actions gave that its
/// actor knew as ended, and why each call was held back, busy or late. Of sets it is asked that those that the writer
/// made are the actors', that an actor meets the writer in an action before it loads or sets a word, and that each meet
/// and each end of an action shows what ended actions set.
pub fn ordered()
    ensures { OrderLaw }
{}

/// What a root knows besides of actors of a later phase, whose seats it split off once it had taken in those of the
/// earlier ones: what they named is not below what those left. Of the words it is asked that their seats began with the
/// versions that the earlier ones left, and met the writer and set words behind these.
pub fn later()
    ensures { SinceLaw }
{}
