//! Laws of the definitions.

ghost use Rattle.pfs_law_phases.specs.Behind.{BeginLaw, EndLaw, NextLaw};
ghost use Rattle.pfs_law_phases.specs.Ends.{EndReadLaw};

/// Before the first phase of a script nothing was done.
pub fn begun()
    ensures { BeginLaw }
{
    pfs_law_script::runs::no_course();
    pfs_law_threads::laws::phases();
}

/// What the root of a board read of the tables behind a phase is the phase's end: it has one order of all changes in
/// common with all sessions so far, and nobody held what was read.
pub fn read()
    ensures { EndReadLaw }
{
    pfs_law_board::laws::read();
}

/// Behind one phase more, whose blocks' sessions ran at once, each over an actor of its own of the board: all that was
/// done, what it has in common, what the reports tell of it, and that the ends so far are final.
pub fn next()
    ensures { NextLaw }
{
    pfs_law_board::laws::shared();
    pfs_law_script::runs::one_more();
    pfs_law_script::runs::reached();
    pfs_law_script::runs::told();
    pfs_law_threads::laws::phases();
}

/// Behind all phases of a script the reports of them are a run of it.
pub fn run()
    ensures { EndLaw }
{
    pfs_law_threads::laws::run();
}
