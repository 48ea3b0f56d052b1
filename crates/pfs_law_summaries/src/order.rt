//! The runs of scripts meet what conservation asks of a run.

ghost use Rattle.pfs_law_summaries.specs.FirstConnects.{BegunLaw};
ghost use Rattle.pfs_law_summaries.specs.OrderlyRuns.{ActionsLaw, ClosedLaw, FirstLaw, KeptLaw, LastLaw, OrderlyLaw, SmallLaw, TextedLaw};
ghost use Rattle.pfs_law_summaries.specs.LastQuits.{QuitLaw};

/// A run of a script keeps the rules that conservation goes by.
pub fn kept()
    ensures { KeptLaw }
{}

/// Each block of it ends with the end of a block.
pub fn closed()
    ensures { ClosedLaw }
{}

/// What a line starts counts in one of 64 cells.
pub fn small()
    ensures { SmallLaw }
{
    pfs_law_script::blocks::playable();
}

/// A statement's digest text is one of the setting's, by its place, or has none.
pub fn texted()
    ensures { TextedLaw }
{
    pfs_law_script::blocks::texted();
}

/// Where sessions connect in their first block alone, as its first line, a session's connect is its first entry.
pub fn begun()
    ensures { BegunLaw }
{}

/// A session's connect is its first entry.
pub fn first()
    ensures { FirstLaw }
{
    pfs_law_script::runs::reached();
    pfs_law_script::blocks::playable();
}

/// Where sessions quit in their last block alone, as its last line, nothing is behind a quit but what it does.
pub fn quit()
    ensures { QuitLaw }
{}

/// Nothing is behind a session's quit but what the quit does.
pub fn last()
    ensures { LastLaw }
{
    pfs_law_script::blocks::playable();
}

/// The label of each of its actions asks for what the action's line does.
pub fn actions()
    ensures { ActionsLaw }
{}

/// A run of a script meets all that conservation asks of its order.
pub fn orderly()
    ensures { OrderlyLaw }
{
    actions();
    first();
    last();
    closed();
    small();
    texted();
}
