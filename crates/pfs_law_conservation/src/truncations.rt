//! What a TRUNCATE does, in the words of its tables.

ghost use Rattle.pfs_law_conservation.specs.TruncationExamples.{Worked};
ghost use Rattle.pfs_law_conservation.specs.TruncationLaws.{
  AccountsLaw,
  UsersLaw,
  HostsLaw,
  StandingLaw,
  LeftLaw,
  TableWordsLaw,
  OrderLaw,
};

/// A TRUNCATE of `accounts` frees each account that no session has, and leaves those that a session has. Of each
/// account TOTAL_CONNECTIONS becomes the number of sessions that have it now. Sessions, users and hosts stay as they
/// are, with their totals.
pub fn accounts()
    ensures { AccountsLaw }
{}

/// A TRUNCATE of `users` frees each user and each account that no session has, and leaves those that a session has. Of
/// each user TOTAL_CONNECTIONS becomes the number of sessions that have it now; an account that remains keeps its own.
/// Sessions and hosts stay as they are, with their totals.
pub fn users()
    ensures { UsersLaw }
{}

/// A TRUNCATE of `hosts` frees each host and each account that no session has, and leaves those that a session has. Of
/// each host TOTAL_CONNECTIONS becomes the number of sessions that have it now; an account that remains keeps its own.
/// Sessions and users stay as they are, with their totals.
pub fn hosts()
    ensures { HostsLaw }
{}

/// Whatever connected, quit, was truncated or changed, each session's account, user and host stand where it has them,
/// and so do the user and the host of each account: a TRUNCATE leaves no account without its user or its host.
pub fn standing()
    ensures { StandingLaw }
{}

/// A TRUNCATE of an event table or a summary leaves the whole administration as it was, but that it is one action more;
/// one of a setup table removes all its rows, and leaves sessions, accounts, users and hosts. Behind one of
/// `setup_actors` no new session is instrumented, and no word is set; behind one of `setup_objects` no table is, and no
/// other word is set.
pub fn summaries()
    ensures { LeftLaw }
{}

/// Whatever connected, quit, was truncated or changed, the switch word of each table says what the rows of
/// `setup_objects` decide of it: a TRUNCATE, UPDATE, INSERT or DELETE of `setup_objects` decides all tables again.
pub fn tables()
    ensures { TableWordsLaw }
{}

/// A TRUNCATE takes no row twice, and the rows that it releases or writes ascend: those of an event table are places of
/// rings, each one of 8450 to 14241, and those of any other table info rows, each one of 1 to 128.
pub fn order()
    ensures { OrderLaw }
{}

/// Sessions of two users from one host, of which one is still there: what a TRUNCATE of each table leaves and takes,
/// number by number.
pub fn worked()
    ensures { Worked }
{}
