//! What a summary row shows under a phase's end is the merge of the events that count there, and what places of rings
//! show.

ghost use Rattle.pfs_law_summaries.specs.CurrentPlaces.{CurrentLaw, CurrentsLaw};
ghost use Rattle.pfs_law_summaries.specs.DigestNumbers.{DigestNumbersLaw};
ghost use Rattle.pfs_law_summaries.specs.DigestSummary.{DigestedLaw};
ghost use Rattle.pfs_law_summaries.specs.ThreadHistories.{HistoriesLaw, HistoryLaw};
ghost use Rattle.pfs_law_summaries.specs.SummaryLaws.{CountedLaw, AgreedLaw};
ghost use Rattle.pfs_law_summaries.specs.LongHistory.{LongLaw, LongsLaw};
ghost use Rattle.pfs_law_summaries.specs.LostDigests.{LostDigestsLaw};
ghost use Rattle.pfs_law_summaries.specs.RowNumbers.{NumbersLaw};
ghost use Rattle.pfs_law_summaries.specs.SummaryExamples.{WorkedSummaries};
ghost use Rattle.pfs_law_summaries.specs.CountExamples.{WorkedCounts};
ghost use Rattle.pfs_law_summaries.specs.DigestExamples.{WorkedDigests};
ghost use Rattle.pfs_law_summaries.specs.HistoryExamples.{WorkedHistory};
ghost use Rattle.pfs_law_summaries.specs.PlaceExamples.{WorkedPlaces};

/// Under the end of each phase of a run of any script, each summary shows just the events that count there: a row for
/// each key and class by which something counts, with their number, sums, least and greatest, and no other row. An
/// event that has ended counts where it was let through, leads to the key, and no action that covers the key has the
/// number of the one that took its row first, or a later one.
pub fn counted()
    ensures { CountedLaw }
{
    pfs_containers::info_rows::infos_return();
    pfs_law_conservation::info_rows::told();
    crate::order::kept();
    crate::order::orderly();
    pfs_law_script::blocks::named();
    crate::ranges::few();
    crate::ranges::in_range();
    pfs_rows::laws::rows();
    pfs_rows::laws::table_names_differ();
    pfs_summaries::laws::rows();
    pfs_law_conservation::conservation::summed();
    agreed();
}

/// What counts by the numbers that conservation gives to events, and by the chains of rows, is what counts by the
/// entries of journals: for each key of a run that keeps the rules and is orderly, and each cell of the kind.
pub fn agreed()
    ensures { AgreedLaw }
{
    pfs_rows::laws::rows();
    pfs_law_conservation::conservation::acted();
    pfs_law_conservation::conservation::added();
}

/// Under the end of each phase of a run of any script, the summary by digest shows just the statements that count
/// there: first the row of the texts without a place, then one for each place, each with its digest, its digest text
/// and their number, sums, least and greatest, and no row where nothing counts. A statement that has ended counts where
/// it was digested, and no TRUNCATE of the summary has the number of the action that took its row first, or a later
/// one.
pub fn digested()
    ensures { DigestedLaw }
{
    crate::order::kept();
    crate::order::orderly();
    crate::ranges::few_ended();
    crate::ranges::in_range();
    pfs_rows::laws::rows();
    pfs_rows::laws::table_names_differ();
    pfs_law_conservation::conservation::digest_acted();
    pfs_law_conservation::conservation::digest_added();
    pfs_law_conservation::conservation::digest_summed();
}

/// Under the end of each phase of a run of any script, the counter of lost digests is the number of the digested
/// statements that have ended and whose digest texts have no place; it is left out where there are none.
pub fn lost_digests()
    ensures { LostDigestsLaw }
{
    crate::order::kept();
    crate::order::orderly();
}

/// The count of a digest's row is the number of the events that count there, so it has a row just where there are some;
/// its least and its greatest are those of their waits.
pub fn digest_numbers()
    ensures { DigestNumbersLaw }
{
    crate::ranges::few_ended();
    crate::ranges::in_range();
}

/// The count of a row is the number of the events that count there, so it has a row just where there are some. Its
/// least and its greatest are waits of timed ones, between which all their waits lie; both are 0 where none was timed,
/// after MySQL.
pub fn numbers()
    ensures { NumbersLaw }
{
    crate::ranges::few();
    crate::ranges::in_range();
}

/// Two small summaries, by user and by thread: their rows, who has none, and lists of rows that they are not.
pub fn worked()
    ensures { WorkedSummaries }
{}

/// Which waits of two sessions count by each key, before and behind a quit and a TRUNCATE by host.
pub fn worked_counts()
    ensures { WorkedCounts }
{}

/// Which statements of a session count by digest, before and behind a TRUNCATE of the summary, and the rows that show
/// it.
pub fn worked_digests()
    ensures { WorkedDigests }
{}

/// Under the end of each phase of a run that keeps the rules and is orderly, of each session that is there, the ten
/// places of each kind's history show just the session's last ten puts of the kind, but for those that were released
/// since: whoever had the slot before.
pub fn history()
    ensures { HistoryLaw }
{}

/// Under the end of each phase of a run of any script, of each session that is there, the places of its histories show
/// just its last ten puts of each kind, but for those that were released since.
pub fn histories()
    ensures { HistoriesLaw }
{
    crate::order::kept();
    crate::order::orderly();
    history();
}

/// Under the end of each phase of a run that keeps the rules and is orderly, each current place of each slot shows just
/// its last put, unless it was released since.
pub fn current()
    ensures { CurrentLaw }
{}

/// Under the end of each phase of a run of any script, each current place of each slot shows just its last put, unless
/// it was released since.
pub fn currents()
    ensures { CurrentsLaw }
{
    crate::order::kept();
    crate::order::orderly();
    current();
}

/// Under the end of each phase of a run that keeps the rules and is orderly, each place of the long history shows just
/// the greatest ticket put there since its last release.
pub fn long()
    ensures { LongLaw }
{}

/// Under the end of each phase of a run of any script, each place of the long history shows just the greatest ticket
/// put there since its last release.
pub fn longs()
    ensures { LongsLaw }
{
    crate::order::kept();
    crate::order::orderly();
    long();
}

/// What the history of two sessions of one slot has and shows: before and behind a quit, of more puts than places, and
/// behind a TRUNCATE.
pub fn worked_history()
    ensures { WorkedHistory }
{}

/// What the current places of two sessions and a place of the long history show: before and behind a quit, where a
/// ticket comes too late, and behind a TRUNCATE.
pub fn worked_places()
    ensures { WorkedPlaces }
{}
