//! The numbers of a script's events are of 64 bits, and a run of it has few events.

ghost use Rattle.pfs_law_summaries.specs.EndedEvents.{FewEndedLaw};
ghost use Rattle.pfs_law_summaries.specs.EventRanges.{FewLaw, InRangeLaw};

/// What any script says of its events are numbers of 64 bits.
pub fn in_range()
    ensures { InRangeLaw }
{}

/// A run of any script has fewer than 2^64 events that have ended.
pub fn few_ended()
    ensures { FewEndedLaw }
{
    pfs_law_script::blocks::total();
    pfs_law_script::blocks::few();
}

/// A run of any script has fewer than 2^64 events of each kind.
pub fn few()
    ensures { FewLaw }
{
    few_ended();
}
