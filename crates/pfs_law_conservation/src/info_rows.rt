//! What the info rows of a run say under a phase's end: who is connected where.

ghost use Rattle.pfs_law_conservation.specs.InfoRowLaws.{HeldLaw, LimitsLaw, RemainingLaw, ToldLaw};
ghost use Rattle.pfs_law_conservation.specs.InfoRowExamples.{WorkedInfos};

/// Under a phase's end of a run that keeps the rules, an info row is FREE just where nobody stands at its place behind
/// the actions so far, and else its content says what stands there.
pub fn told()
    ensures { ToldLaw }
{}

/// No place at or past its limit is in use.
pub fn within_limits()
    ensures { LimitsLaw }
{}

/// A place of an account, a user or a host that is in use stays so until a truncation frees it.
pub fn remaining()
    ensures { RemainingLaw }
{}

/// A truncation frees no account, user or host that a session has.
pub fn held()
    ensures { HeldLaw }
{}

/// What the info rows of a worked run are to say, phase by phase.
pub fn worked()
    ensures { WorkedInfos }
{}
