//! Laws of the definitions.

ghost use Rattle.pfs_law_made.specs.MadeContents.{BeforeLaw, FindsLaw, KeptLaw};

/// Where the changes of some entries are orderly, and what is kept are their contents, the changes make just that of
/// each row at each version that it had.
pub fn kept()
    ensures { KeptLaw }
{}

/// And each row that is changed had the version before.
pub fn before()
    ensures { BeforeLaw }
{}

/// So a take finds what is made of its row just where what is kept of it has counted something.
pub fn finds()
    ensures { FindsLaw }
{}
