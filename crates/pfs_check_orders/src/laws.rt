//! What is kept of the actions is what a run goes by.

ghost use Rattle.pfs_check_orders.specs.ActionOrders.{TermsLaw};

/// Of each action all that is done where each take finds something, where it finds room, and what it is answered.
pub fn terms()
    ensures { TermsLaw }
{
    pfs_check_blank::laws::asks();
}
