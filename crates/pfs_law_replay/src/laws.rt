//! Laws of the definitions.

ghost use Rattle.pfs_law_replay.specs.ContentReplays.{MadeLaw, OnlyLaw, WholeLaw};
ghost use Rattle.pfs_law_replay.specs.EarlierChanges.{BelowLaw, RisesLaw};
ghost use Rattle.pfs_law_replay.specs.SingleChanges.{OnceLaw};

/// A replay has contents as the changes that were replayed make them, and there are no others: of any changes, so long
/// as each has the version above its row's last one, and what a give gives was taken before it.
pub fn replayed()
    ensures made { MadeLaw }
    ensures only { OnlyLaw }
{}

/// So a replay of all changes of a report has the contents of the report (`AreContents`), and there are no others.
pub fn whole()
    ensures { WholeLaw }
{
    replayed();
}

/// A change stands above each earlier one of its session and row; and what an action changes below another's change of
/// a row is by an action of no greater number.
pub fn earlier()
    ensures rises { RisesLaw }
    ensures below { BelowLaw }
{}

/// Where the versions of each row are chained, each change stands once.
pub fn once()
    ensures { OnceLaw }
{}
