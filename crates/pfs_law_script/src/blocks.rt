//! The blocks of any script may be played.

ghost use Rattle.pfs_law_script.specs.BlockExamples.{WorkedPhases};
ghost use Rattle.pfs_law_script.specs.PlayableBlocks.{ActionsLaw, FewLaw, LinesLaw, NamedLaw, PlayableLaw, TotalLaw, TextedLaw};

/// The blocks of each phase of any script may be played, behind the phases before it.
pub fn playable()
    ensures { PlayableLaw }
{}

/// With each repeat written out the blocks of any script have at most 200,000 lines together.
pub fn total()
    ensures { TotalLaw }
{}

/// With each repeat written out the blocks of any script have at most 16,666 actions of SQL together, and truncate at
/// most 250 times.
pub fn actions()
    ensures { ActionsLaw }
{}

/// Any script has at most 200,000 blocks.
pub fn few()
    ensures { FewLaw }
{}

/// The blocks of a session of any script have at most 200,000 lines, those of a repeat once.
pub fn lines()
    ensures { LinesLaw }
{}

/// Where a block of any script connects its session, it gives names of the script's setting.
pub fn named()
    ensures { NamedLaw }
{}

/// Each statement of any script has a digest text of the script's setting, by its place, or none.
pub fn texted()
    ensures { TextedLaw }
{}

/// A script of two sessions and two phases, worked, and what may not be played.
pub fn worked()
    ensures { WorkedPhases }
{}
