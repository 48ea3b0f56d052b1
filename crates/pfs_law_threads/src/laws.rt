//! Laws of the definitions.

ghost use Rattle.pfs_law_threads.specs.Phases.{NoneLaw, OneMoreLaw};
ghost use Rattle.pfs_law_threads.specs.Placed.{PlacedLaw};
ghost use Rattle.pfs_law_threads.specs.Runs.{RunLaw};

/// What sessions did at the blocks of a script, at once and on whatever store that gives what they have in common phase
/// by phase, is a run of the script, with a report that tells of them and of the ends of their phases.
pub fn run()
    ensures { RunLaw }
{
    pfs_law_script::runs::facts();
    pfs_law_script::runs::run();
    pfs_law_shared::laws::agreed();
    pfs_law_shared::laws::ends();
    pfs_law_shared::laws::joined();
    pfs_law_shared::laws::nearby();
    pfs_law_shared::laws::shown();
}

/// What sessions have in common phase by phase goes on, from none, for the sessions of one phase more, which have one
/// order of all that they changed in common with all before them.
pub fn phases()
    ensures none { NoneLaw }
    ensures one_more { OneMoreLaw }
{}

/// What sessions put goes to places of rings, whatever their store: an event to a place of its thread's ring, or to the
/// long place of the ticket that was drawn for it.
pub fn placed()
    ensures { PlacedLaw }
{}
