//! Laws of the definitions.

ghost use Rattle.pfs_law_joint.specs.Causes.{CausesLaw, OthersLaw};
ghost use Rattle.pfs_law_joint.specs.Contents.{SameLaw};
ghost use Rattle.pfs_law_joint.specs.Deeds.{RowsLaw, WordsLaw};
ghost use Rattle.pfs_law_joint.specs.Floors.{FloorsLaw};
ghost use Rattle.pfs_law_joint.specs.Phases.{HadLaw, LaterLaw, NamedLaw, PlainLaw, WordHadLaw, WordNamedLaw};
ghost use Rattle.pfs_law_joint.specs.Tickets.{TicketsLaw};
ghost use Rattle.pfs_law_joint.specs.Versions.{ChainLaw, FlagsLaw, MarksLaw, SetsLaw};

/// Whoever tells the changes of a row that actors made, each as often, tells a chain of versions; so of the numbers of
/// actions and of the sets of words. The flags of a word at a version don't depend on the order in which sets are told.
pub fn chained()
    ensures rows { ChainLaw }
    ensures marks { MarksLaw }
    ensures sets { SetsLaw }
    ensures flags { FlagsLaw }
{}

/// Along a row, and along a word, the numbers of the actions that changed it never fall.
pub fn never_fall()
    ensures rows { RowsLaw }
    ensures words { WordsLaw }
{}

/// A version that a call names is not above what is said of its actor's calls behind it, and is one that the row, or
/// the word, had by the phase's end.
pub fn named()
    ensures rows { NamedLaw }
    ensures words { WordNamedLaw }
    ensures had { HadLaw }
    ensures words_had { WordHadLaw }
{}

/// The actions of a phase have greater numbers than those of the phases before.
pub fn later()
    ensures { LaterLaw }
{}

/// Each call is above, or not below, what stood as its phase began, what its actor's calls named before, and what the
/// actions gave that it knew as ended.
pub fn floored()
    ensures { FloorsLaw }
{}

/// A row that all marks say to have been in another's hand at a version was in that of another actor of the phase, who
/// published it next, or it was released there.
pub fn others()
    ensures { OthersLaw }
{}

/// What was held back, busy or late has its cause in other actors' calls, and a row that was read free stood so.
pub fn caused()
    ensures { CausesLaw }
{
    others();
}

/// Each ticket of a kind below the number of those that were drawn was drawn once, and no other one.
pub fn drawn()
    ensures { TicketsLaw }
{}

/// What stands in a row at a version doesn't depend on the phase at whose end it is asked.
pub fn same()
    ensures { SameLaw }
{}

/// A plain store that its actors use one after another gives what the laws ask.
pub fn plain()
    ensures { PlainLaw }
{
    pfs_levels::laws::plain_calls_are_ordered();
}
