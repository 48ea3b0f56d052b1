//! The course of a run: what sessions did at the blocks of a script, from nothing on, block by block, to the whole.

ghost use Rattle.pfs_law_script.specs.BlocksAhead.{ReachedLaw};
ghost use Rattle.pfs_law_script.specs.CourseSteps.{NoCourseLaw, OneMoreLaw};
ghost use Rattle.pfs_law_script.specs.ReportSpells.{AreToldOn};
ghost use Rattle.pfs_law_script.specs.WholeCourse.{FactsLaw, RunLaw, WholeLaw};

/// Before anything was done there is a course over no blocks, and each session is as it begins.
pub fn no_course()
    ensures { NoCourseLaw }
{}

/// A course over the first blocks of a script goes on at the next block, once its session has done the block's deeds,
/// whatever its store: with the block's spell, its session as it stands behind it, and all others as they stood.
pub fn one_more()
    ensures { OneMoreLaw }
{}

/// Where the phases of a script may be played, each of its blocks is next behind those before it, its session isn't
/// over there, and no session that is over behind it has a block again.
pub fn reached()
    ensures { ReachedLaw }
{}

/// What a report tells of blocks and phases, with one block more, one phase more, and one block more in the last phase.
pub fn told()
    ensures { AreToldOn }
{}

/// The events of sessions that did what the blocks of a script say have the facts that it says of them.
pub fn facts()
    ensures { FactsLaw }
{
    pfs_law_plain::facts::session();
}

/// A course over all blocks of a script keeps the rules of a run, by the labels and the contents of the plain store
/// that answered it; its journals show what its sessions loaded and answered, and each line agrees with those before it.
pub fn whole()
    ensures { WholeLaw }
{
    facts();
    pfs_law_plain::answers::answered();
    pfs_law_plain::rules::ruled();
}

/// Spells at all blocks of a script that keep the rules of a run so, whatever store they had, with a report that tells
/// of them, and of what stands under the ends of its phases, are a run of the script.
pub fn run()
    ensures { RunLaw }
{}
