//! Sessions that run one after another on one plain store, and what their journals have in common.

ghost use Rattle.pfs_law_plain.specs.PlainJournals.{AloneLaw};
ghost use Rattle.pfs_law_plain.specs.SessionNotes.{ToldLaw, ToldThroughLaw};
ghost use Rattle.pfs_law_plain.specs.Weights.{WeighedLaw, WeighedThroughLaw};

/// What a session's entries tell is what its calls tell, in the same order, whatever store it has: the changes, releases
/// and readings of rows, and the sets and loads of switch words; and actions have the numbers of their administration.
pub fn told()
    ensures { ToldLaw }
{}

/// The same of a session through all its phases.
pub fn told_through()
    ensures { ToldThroughLaw }
{}

/// So what its entries print weighs as what its calls did: each sum over the publications and releases of rows, and
/// over the sets of switch words, is the same of both.
pub fn weighed()
    ensures { WeighedLaw }
{}

/// The same of a session through all its phases.
pub fn weighed_through()
    ensures { WeighedThroughLaw }
{}

/// Sessions that run one after another on a plain store write journals in which each line agrees with those before it.
/// So these have the right shape, chains, the order of the actions and floors, and nothing is held back in them; each
/// verdict is that of the flags at the versions that it names, and each event has its numbers.
pub fn alone()
    ensures { AloneLaw }
{}
