//! What holds of all journals.

ghost use Rattle.pfs_conservation.specs.ConservedSums.{Conserved, Discarded, Reported, ReportedDiscarded};

/// Whatever the interleaving, what a summary row shows is the merge of the events that count there.
pub fn conserved()
    ensures { Conserved }
{
    pfs_stat::laws::merge();
}

/// Every event is shown by the global row or was discarded by one take of its cell.
pub fn discarded()
    ensures { Discarded }
{
    pfs_stat::laws::merge();
}

/// Of the printed changes of one kind's rows, by any number of sessions, that keep the rules of chains, actions,
/// moves and floors: what the rows of a key show after the last action is the merge of the events that lead to the
/// key, but for those where a covering action has the number of the first take of their row behind their addition, or
/// a later one.
pub fn reported()
    ensures { Reported }
{
    pfs_stat::laws::merge();
}

/// Of the same printed changes: what the rows of the global key show of a cell after the last action, and what the
/// takes of the cell's global row found, are together the events of the cell. So each is shown or was discarded by just
/// one take.
pub fn reported_discarded()
    ensures { ReportedDiscarded }
{
    pfs_stat::laws::merge();
}
