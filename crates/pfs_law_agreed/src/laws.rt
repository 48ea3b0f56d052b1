//! What does not go by the order in which sessions came.

ghost use Rattle.pfs_law_agreed.specs.AgreedExamples.{WorkedAgreement, WorkedScripts};
ghost use Rattle.pfs_law_agreed.specs.Agreement.{QuietLaw};
ghost use Rattle.pfs_law_agreed.specs.AlignedEvents.{AlignedLaw};
ghost use Rattle.pfs_law_agreed.specs.FirstPhases.{FirstPhaseLaw, SecondPhaseLaw};
ghost use Rattle.pfs_law_agreed.specs.QuietPhases.{QuietLoadsLaw};
ghost use Rattle.pfs_law_agreed.specs.SameRows.{RowsLaw};
ghost use Rattle.pfs_law_agreed.specs.ToldLines.{ToldLaw};

/// Two runs of one script, in whatever orders their sessions came, start and end the same events, one by one: in the
/// same phase, session and line, with the same position among the session's starts and of the same subject, where the
/// same events of the session are open.
pub fn aligned()
    ensures { AlignedLaw }
{}

/// In a phase of a run where no session connects, quits or acts by SQL, whatever is loaded of a switch word there is at
/// the version that the word had as the phase began.
pub fn quiet_loads()
    ensures { QuietLoadsLaw }
{}

/// Let two runs of one script agree behind a phase (`AgreeBehind`): in the flags of consumers, classes, tables and of
/// each session's thread, in which places each session has, in each open event with its verdict and what its start
/// saw, and in what they show. In the next phase let no session connect, quit or act by SQL. Then each start there has
/// the same verdict in both, and each open event saw the same.
pub fn quiet_verdicts()
    ensures { ToldLaw }
{
    pfs_law_summaries::order::kept();
    pfs_law_summaries::order::orderly();
}

/// And they show the same behind that phase: of each cell of each summary the same for each key (by thread for each
/// session, at whatever slot), the same for each digest, and the same counters of what was lost.
pub fn quiet_phase()
    ensures { QuietLaw }
{
    pfs_law_summaries::order::kept();
    pfs_law_summaries::order::orderly();
}

/// Let the first phase of a script have nothing but connects, and no more of them than there are slots, accounts, users
/// or hosts. Then two runs of it agree in all this behind that phase, at whatever slots and places their sessions are.
pub fn first_phase()
    ensures { FirstPhaseLaw }
{
    pfs_law_summaries::order::kept();
    pfs_law_summaries::order::orderly();
}

/// So where in the second phase no session connects, quits or acts by SQL, they show the same behind it: whatever the
/// order in which the sessions came, in both phases.
pub fn second_phase()
    ensures { SecondPhaseLaw }
{
    first_phase();
    quiet_phase();
}

/// Two runs of one script that show the same behind a phase print the same rows there, in the same order: of the global
/// summary of each kind, and of the summary by digest.
pub fn same_rows()
    ensures { RowsLaw }
{
    pfs_law_summaries::summaries::counted();
    pfs_law_summaries::summaries::digested();
}

/// Two phases of two sessions that meet what the laws ask of a script, and others that don't.
pub fn worked_phases()
    ensures { WorkedScripts }
{}

/// Two sessions that connect in either order, each at the other's slot in the other run: the runs agree; with other
/// flags of a session's thread they don't.
pub fn worked()
    ensures { WorkedAgreement }
{}
