//! From the journals of a run to the conservation law: the lines that change rows of one kind, with their sessions,
//! actions and events.

ghost use Rattle.pfs_law_conservation.specs.RunDigests.{DigestActedLaw, DigestAddedLaw, DigestContentLaw, DigestSummedLaw};
ghost use Rattle.pfs_law_conservation.specs.ConservationLaws.{ActedLaw, AddedLaw, ContentLaw, FoundLaw, SummedLaw, DiscardedLaw, ClearedLaw};
ghost use Rattle.pfs_law_conservation.specs.ConservationExamples.{WorkedTags};

/// The lines of a kind keep the rules of acted lines: their versions are those of chains and rise along a session, the
/// numbers of actions never fall along a row, and each action prints just what it moves.
pub fn acted()
    ensures { ActedLaw }
{
    pfs_rows::laws::rows();
}

/// What the lines of a kind make of a row, change after change, is what stands there under the phase's end.
pub fn contents()
    ensures { ContentLaw }
{
    pfs_rows::laws::rows();
    pfs_stat::laws::words();
}

/// The run says of an action's take that it found something counted just where it does so by the lines.
pub fn found()
    ensures { FoundLaw }
{
    pfs_rows::laws::rows();
    pfs_stat::laws::words();
}

/// Each event of a kind is added once, at its home: by its session, above what the actions up to its connect did there,
/// and below the take of its quit.
pub fn added()
    ensures { AddedLaw }
{
    pfs_rows::laws::rows();
}

/// What the rows of a key show under a phase's end is the merge of the events that lead to the key, but for those where
/// a covering action has the number of the first take of their row behind their addition, or a later one.
pub fn summed()
    ensures { SummedLaw }
{
    pfs_conservation::laws::reported();
    pfs_rows::laws::rows();
    pfs_stat::laws::merge();
    pfs_stat::laws::words();
}

/// What the rows of the global key show of a cell under a phase's end, and what the printed takes of the cell's global
/// row found, are together the merge of the events of the cell that were let through and have ended.
pub fn discarded()
    ensures { DiscardedLaw }
{
    pfs_conservation::laws::reported_discarded();
    pfs_rows::laws::rows();
    pfs_stat::laws::merge();
    pfs_stat::laws::words();
}

/// Each printed take of a cell's global row is by a TRUNCATE of the kind's global summary, so no other action discards.
pub fn cleared()
    ensures { ClearedLaw }
{
    pfs_rows::laws::rows();
}

/// The lines of digests keep the rules of acted lines: each TRUNCATE of their table takes each of the setting's rows,
/// that of the texts without a place first, and no other action takes one.
pub fn digest_acted()
    ensures { DigestActedLaw }
{}

/// Each statement that is digested is added once to the row of its digest, which is one of the setting's, and to no
/// other row of a digest; no other event is.
pub fn digest_added()
    ensures { DigestAddedLaw }
{}

/// What the lines of digests make of a row, change after change, is what stands there under the phase's end.
pub fn digest_content()
    ensures { DigestContentLaw }
{
    pfs_stat::laws::words();
}

/// What a row of a digest shows under a phase's end is the merge of the digested statements that lead there, but for
/// those where a TRUNCATE of the table has the number of the first take of the row behind their addition, or a later
/// one.
pub fn digest_summed()
    ensures { DigestSummedLaw }
{
    pfs_conservation::laws::conserved();
    pfs_stat::laws::merge();
    pfs_stat::laws::words();
}

/// The lines of a worked run: its waits and its statement, the actions of its sessions, whose the events are, and what
/// the rows show after the quit.
pub fn worked()
    ensures { WorkedTags }
{}
