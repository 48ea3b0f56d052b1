//! Laws of the definitions.

ghost use Rattle.pfs_containers.specs.PlaceLaws.{ConnectLaw, QuitLaw, WithinLaw};

/// No two sessions share a slot: a connect takes a slot that was free, and leaves each other one as it was. Of each
/// account, user and host that the session has, and of no other, there is one connection more.
pub fn a_connect_takes_a_free_slot()
    ensures { ConnectLaw }
{}

/// A quit frees one slot, that of the session, and leaves each other one as it was. Of each account, user and host
/// that the session had, and of no other, there is one connection less.
pub fn a_quit_frees_its_own_slot()
    ensures { QuitLaw }
{}

/// After any connects, quits and truncations no account, user or host has more connections than it has had in all.
pub fn no_more_now_than_in_all()
    ensures { WithinLaw }
{}
