//! Laws of the definitions.

ghost use Rattle.pfs_law_shared.specs.Answers.{ShownLaw};
ghost use Rattle.pfs_law_shared.specs.Ends.{EndsLaw};
ghost use Rattle.pfs_law_shared.specs.Floors.{FlooredLaw};
ghost use Rattle.pfs_law_shared.specs.Joined.{JoinedLaw};
ghost use Rattle.pfs_law_shared.specs.Journals.{AgreedLaw, ChainedLaw};
ghost use Rattle.pfs_law_shared.specs.Labels.{LabelledLaw};
ghost use Rattle.pfs_law_shared.specs.Order.{NearbyLaw, NearLaw, OrderedLaw, RisingLaw, ThereLaw};
ghost use Rattle.pfs_law_shared.specs.Rules.{RuledLaw};
ghost use Rattle.pfs_law_shared.specs.Shares.{PlainLaw};
ghost use Rattle.pfs_law_shared.specs.Tickets.{ApartLaw, PlacedLaw, RisenLaw, TicketedLaw};

/// At each phase's end the changes of rows that the journals of sessions at once print are chains along each row, and
/// their sets of words along each word, whoever ran when, held and settled additions among them.
pub fn chained()
    ensures { ChainedLaw }
{
    pfs_law_joint::laws::chained();
    pfs_law_plain::journals::told();
    pfs_law_plain::journals::weighed();
}

/// The sets that they print give the flags that they have in common, and their calls agree with these and with the
/// contents that they have in common; so their journals are what their lines ask for, with the verdicts of these flags
/// and the numbers of the events.
pub fn agreed()
    ensures { AgreedLaw }
{
    pfs_law_joint::laws::chained();
    pfs_law_plain::journals::told();
    pfs_law_plain::journals::weighed();
    pfs_law_session::journal::contents();
    pfs_law_session::journal::journals();
}

/// The actions' numbers that they print are 1 to n at each phase's end, each once; along a row, and along a word, they
/// never fall.
pub fn ordered()
    ensures { OrderedLaw }
{
    agreed();
    pfs_law_joint::laws::chained();
    pfs_law_joint::laws::never_fall();
    pfs_law_plain::journals::told();
    pfs_law_plain::journals::weighed();
}

/// Along each session that does what it does in a phase as one, the numbers rise.
pub fn rising()
    ensures { RisingLaw }
{
    pfs_law_joint::laws::later();
    pfs_law_plain::journals::told_through();
}

/// The rows and words that the journals name are there.
pub fn there()
    ensures { ThereLaw }
{
    pfs_law_plain::journals::told_through();
}

/// Each line is above, or not below, what its session must have seen: what stood as its phase began, what the session's
/// lines before it show, and what the actions gave that had ended. What was held, busy or late, or found a row vacant,
/// has its cause.
pub fn floored()
    ensures { FlooredLaw }
{
    agreed();
    pfs_law_joint::laws::caused();
    pfs_law_joint::laws::floored();
    pfs_law_joint::laws::later();
    pfs_law_joint::laws::named();
    pfs_law_plain::journals::told();
    pfs_law_plain::journals::weighed();
}

/// The labels that they have in common are those of the printed actions by their numbers, each with its session and its
/// place among this one's actions.
pub fn labelled()
    ensures { LabelledLaw }
{
    agreed();
    pfs_law_joint::laws::chained();
    pfs_law_joint::laws::never_fall();
    pfs_law_plain::journals::told();
    pfs_law_plain::journals::told_through();
    pfs_law_plain::journals::weighed();
}

/// With the administration that is the fold of their actions, sessions at once keep the rules of a run that go by
/// shapes, chains, orders, verdicts, labels and contents: all but floors, causes, tickets and the places of the long
/// history.
pub fn ruled()
    ensures { RuledLaw }
{
    agreed();
    chained();
    labelled();
    ordered();
    rising();
    there();
    pfs_law_plain::journals::told();
    pfs_stat::laws::merge();
}

/// Phase by phase each place of a long history has as many puts as there are tickets of it; these stand at their
/// places, each once, and rise along a session.
pub fn ticketed()
    ensures { TicketedLaw }
{
    pfs_law_plain::journals::told();
    pfs_law_plain::journals::weighed();
}

/// Along a place of a long history tickets rise with the versions, between two releases, where no addition and nothing
/// that an action puts names such a place.
pub fn risen()
    ensures { RisenLaw }
{
    pfs_law_plain::journals::told();
    pfs_law_plain::journals::weighed();
}

/// Sessions whose actions are those of the fold add to cells and rows of digests, and put to these and to info rows:
/// none of it is a place of a long history.
pub fn apart()
    ensures { ApartLaw }
{}

/// The rows and words that sessions of the fold name are there, by what they have in common.
pub fn nearby()
    ensures { NearbyLaw }
{}

/// All together: the labels that sessions at once have in common are those of the printed actions, and their journals
/// keep the rules of a run.
pub fn joined()
    ensures { JoinedLaw }
{
    apart();
    floored();
    nearby();
    risen();
    ruled();
    ticketed();
}

/// What sessions at once answered as they ran, their journals show: by the contents, the labels and the printed flags
/// of all of them.
pub fn shown()
    ensures { ShownLaw }
{
    agreed();
}

/// What is read behind the sessions of a phase, and behind those before them, is final: its tables show what the
/// journals so far make of rows and words, and its counters what was lost by them.
pub fn ends()
    ensures { EndsLaw }
{
    agreed();
    pfs_law_joint::laws::chained();
    pfs_law_joint::laws::never_fall();
    pfs_law_joint::laws::same();
    pfs_law_plain::journals::told();
    pfs_law_plain::journals::weighed();
}

/// A plain store that its sessions use one after another gives what they have in common; their calls name its rows and
/// words, and their puts go to places of rings.
pub fn plain()
    ensures shared { PlainLaw }
    ensures near { NearLaw }
    ensures placed { PlacedLaw }
{
    pfs_law_joint::laws::plain();
}
