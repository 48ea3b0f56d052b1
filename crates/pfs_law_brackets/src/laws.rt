//! The law of brackets.

ghost use Rattle.pfs_law_brackets.specs.BracketNumbers.{BracketLaw};

/// Of each session of a run: its start lines begin the events of its script's lines, in the order of their opening
/// lines, and its end lines end those whose brackets close, line by line. What is open by the journal's stack is what
/// the brackets leave open. So an event's numbers go by the brackets.
pub fn numbers()
    ensures { BracketLaw }
{
    pfs_script::laws::events();
}
