//! Laws of the tickets.

ghost use Rattle.pfs_check_tickets.specs.TicketRules.{RisesKept, TicketsKept};

/// The tickets of all kinds and phases are right where each put's is; and none is put over a greater one along a row,
/// unless it was released, where each is above the one right before it.
pub fn tickets()
    ensures each { TicketsKept }
    ensures rising { RisesKept }
{}
