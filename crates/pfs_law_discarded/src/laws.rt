//! The law of discarded sums.

ghost use Rattle.pfs_law_discarded.specs.DiscardedSums.{DiscardedLaw};

/// Under each phase's end of a run of any script, of each kind and each cell of it: what the global summary shows of
/// the cell, and what each TRUNCATE of that summary found in its row, are together the merge of all events of the cell
/// that were let through and have ended. No other action took the row, so each of these events is shown or was
/// discarded by just one such TRUNCATE.
pub fn discarded()
    ensures { DiscardedLaw }
{
    pfs_law_summaries::order::kept();
    pfs_law_summaries::order::orderly();
    pfs_law_summaries::ranges::in_range();
    pfs_law_summaries::ranges::few();
    pfs_law_summaries::summaries::agreed();
    pfs_law_conservation::conservation::summed();
    pfs_law_conservation::conservation::discarded();
    pfs_law_conservation::conservation::cleared();
}
