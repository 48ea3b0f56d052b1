//! What holds of each report whose shape is right.

ghost use Rattle.std.specs.Prelude.{List};
ghost use Rattle.pfs_check_causes.specs.GreatestPuts.{PutsLaw, PutsWorked};
ghost use Rattle.pfs_check_causes.specs.TicketPuts.{NeverFallFrom};
ghost use Rattle.pfs_model.specs.EntryPlaces.{Block, IsShaped, places};

/// The phases of the entries never fall.
pub fn phases_rise()
    ensures { (blocks : List Block) → IsShaped blocks → NeverFallFrom 0 (places blocks) }
{}

/// What is kept of the puts of a ticket tells, of each session and each phase, the greatest version at which the other
/// sessions put the ticket up to the phase's end; and so of four puts of two sessions in two phases.
pub fn greatest_puts()
    ensures told { PutsLaw }
    ensures worked { PutsWorked }
{}
