//! Laws of the tickets.

ghost use Rattle.pfs_tickets.specs.TicketLaws.{SumLaw, PhaseLaw};

/// A draw keeps the sum of a seat's draws left and its tickets, a split divides it, and a join adds it up. So the
/// root has the whole sum again once each seat was taken in.
pub fn sums()
    ensures { SumLaw }
{}

/// The tickets that a seat gained between two tellings are of each kind those from the earlier number to one below
/// the later, each once.
pub fn phases()
    ensures { PhaseLaw }
{}
