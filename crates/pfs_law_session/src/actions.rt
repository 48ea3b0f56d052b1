//! What an administration asks for is what the journals of its sessions say it did.

ghost use Rattle.pfs_law_session.specs.DoneActions.{DoneLaw};
ghost use Rattle.pfs_law_session.specs.ActionExamples.{WorkedRun};
ghost use Rattle.pfs_law_session.specs.AllActions.{ContentsLaw, LinesLaw, RunLaw};
ghost use Rattle.pfs_law_session.specs.Takes.{ApartLaw, CountedLaw};
ghost use Rattle.pfs_law_session.specs.Orders.{WholeLaw};

/// An action of a session does just what the administration asks for, in its order; a connect prints the places that
/// the administration found; and each take, give and tag makes its row's content of the one before.
pub fn done()
    ensures { DoneLaw }
{}

/// The same of the lines of a session, alone or among others: under each number that is one of its actions stands what
/// this asks for, and under any other stands nothing.
pub fn lines()
    ensures { LinesLaw }
{}

/// The same of all journals of any number of sessions.
pub fn run()
    ensures { RunLaw }
{}

/// With the additions and the puts, the contents of all rows are as their changes make them; and these are made where
/// each session adds what is given, and puts the words of its events.
pub fn contents()
    ensures { ContentsLaw }
{}

/// Where no action takes a row twice, its number and the row say whether the take found something counted.
pub fn counted()
    ensures { CountedLaw }
{}

/// No action takes a row twice, where no number is that of two, the places of each session are in range and no
/// truncation asks for a row twice.
pub fn apart()
    ensures { ApartLaw }
{}

/// So of any number of sessions there are orders, those of their parts, and all journals say that just this was done.
pub fn whole()
    ensures { WholeLaw }
{}

/// Two sessions of one account connect, and the first one ends: a wait that it has counted goes up to the account. All
/// that the laws ask of them holds.
pub fn worked()
    ensures { WorkedRun }
{}
