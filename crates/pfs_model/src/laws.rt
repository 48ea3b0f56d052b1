//! Laws of the definitions.

ghost use Rattle.pfs_model.specs.JournalCuts.{Exact, Misfits};
ghost use Rattle.pfs_model.specs.PlainAgreement.{PlainKeeps};

/// A journal is cut into parts exactly where those are shaped by their lines and spell it. So it has
/// its parts in one way.
pub fn exact()
    ensures { Exact }
{}

/// Where a journal isn't cut, no journal of the lines begins with the entries up to the misfit and
/// the one that stands there.
pub fn misfits()
    ensures { Misfits }
{}

/// Journals of the right shape in which each line agrees with the lines before it have chains, the
/// order of the actions, and floors; and nothing is held back in them. Of tickets, of places and of
/// what is vacant it says nothing.
pub fn plain()
    ensures { PlainKeeps }
{}
