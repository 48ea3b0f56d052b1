//! Laws of a board's history.

ghost use Rattle.pfs_board.specs.OpeningWords.{OpeningLaw};
ghost use Rattle.pfs_board.specs.Versions.{ChainLaw, MadeLaw};

/// A chain in its own words: a row's publications have the versions from 1 up to their number, each once; each
/// release stands behind the publication of its version and before the next one; and the row is free exactly where a
/// release stands at its last version, or it opened free and has no publication. The rule is our own.
pub fn chains()
    ensures { ChainLaw }
{}

/// What a test says of each entry of a history it says of each entry that a seat has which made or took in all of them.
pub fn made()
    ensures { MadeLaw }
{}

/// A board's opening words have each row's lock word and content at their places; row 0 is allocated whatever its
/// opening says.
pub fn opened()
    ensures { OpeningLaw }
{}
