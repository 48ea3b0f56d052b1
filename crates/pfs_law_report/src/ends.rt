//! What stands under a phase's end is what the journals so far make of rows, switch words and counters.

ghost use Rattle.pfs_law_report.specs.PhaseEnds.{AllEndLaw, CanEndLaw, EndsLaw};

/// Where the sessions up to a phase led, tables that were read there, and counters of what was lost until there, show
/// what the journals of the whole run make of rows, switch words and containers up to the phase.
pub fn ends()
    ensures { EndsLaw }
{}

/// And so at the ends of all phases of a run.
pub fn all_end()
    ensures { AllEndLaw }
{}

/// Whatever sessions did, a phase can end behind them, since the tables of any plain store can be read. So what the laws
/// above ask of a phase's end can be had.
pub fn can_end()
    ensures { CanEndLaw }
{
    pfs_rows::laws::rows();
}
