//! What a session does at its lines, as the parts of its journal.

ghost use Rattle.pfs_law_session.specs.Amounts.{AmountsLaw, ContentsLaw, FactsLaw, SumsLaw, WholeLaw};
ghost use Rattle.pfs_law_session.specs.JournalLaws.{FreshLaw, JournalLaw, WrittenLaw};
ghost use Rattle.pfs_law_session.specs.Stints.{JournalsLaw, StintsLaw};

/// What a session writes at a line is what the line asks for, each verdict is that of the flags that were loaded, each
/// event has its numbers, and the session stands behind it as its journal tells.
pub fn written()
    ensures { WrittenLaw }
{}

/// The same of lines one after another within a phase, as the rules of a journal have it.
pub fn journaled()
    ensures { JournalLaw }
{}

/// The same of all blocks of any number of sessions, phase by phase, whatever their store.
pub fn journals()
    ensures { JournalsLaw }
{}

/// A session that begins stands as an empty journal tells.
pub fn fresh()
    ensures { FreshLaw }
{}

/// What a session adds to a row is exactly the amounts of the events that its journal brings there: each ended
/// let-through event once, with its time and its numbers; and what it holds back is the sum of what waits.
pub fn amounts()
    ensures { AmountsLaw }
{
    pfs_stat::laws::merge();
}

/// The same of each session from its beginning on, through all its phases and among any others; once it has ended, each
/// ended let-through event was brought just once, to its row, and nothing else was brought.
pub fn whole()
    ensures { WholeLaw }
{
    pfs_stat::laws::merge();
}

/// A session that begins holds nothing and nothing waits; and where a session holds nothing, nothing waits.
pub fn sums()
    ensures { SumsLaw }
{}

/// What the law of amounts asks of the contents is what a store's actors have in common, and what it answers is what
/// the rules of a journal ask for.
pub fn contents()
    ensures { ContentsLaw }
{}

/// Whatever sessions do phase by phase, each going on as it was left, each stint is done by a session of its number.
pub fn stints()
    ensures { StintsLaw }
{}

/// Whatever a session does from its beginning on has facts.
pub fn facts()
    ensures { FactsLaw }
{}
