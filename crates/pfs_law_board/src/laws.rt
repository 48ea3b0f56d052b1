//! Laws of the definitions.

ghost use Rattle.pfs_law_board.specs.EndReadings.{ReadLaw};
ghost use Rattle.pfs_law_board.specs.PhaseEnds.{PhaseLaw, SharedLaw};

/// What the root of a board that keeps a desk is told at the ends of any number of phases makes the calls of each phase's
/// actors shared with all of those before: one order of all changes, one of all sets and one of all tickets, each call not
/// below what actions gave that its actor knew as ended, nor below what the earlier phases left.
pub fn shared()
    ensures { SharedLaw }
{
    pfs_board_store::laws::joint();
    pfs_board_store::laws::ordered();
    pfs_board_store::laws::later();
    pfs_board_admin::laws::shared();
}

/// The same of one phase, behind any actors whose end the root was told.
pub fn phase()
    ensures { PhaseLaw }
{
    pfs_board_store::laws::joint();
    pfs_board_store::laws::ordered();
    pfs_board_store::laws::later();
    pfs_board_admin::laws::shared();
}

/// The root's own readings between two ends, each of what stands there, share with all actors before, and the
/// administration that it was lent stands for their labels.
pub fn read()
    ensures { ReadLaw }
{
    pfs_board_store::laws::joint();
    pfs_board_store::laws::ordered();
    pfs_board_store::laws::later();
    pfs_board_admin::laws::shared();
}
