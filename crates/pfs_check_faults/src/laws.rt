//! Laws of the definitions.

ghost use Rattle.pfs_check_faults.specs.EntryFaults.{ChainLaw, RisingLaw};
ghost use Rattle.pfs_check_faults.specs.FaultExamples.{WorkedCases, WorkedShapes};
ghost use Rattle.pfs_check_faults.specs.Judgements.{FirstRule, LastRule, NextRule, OneJudgement, RunLaw};
ghost use Rattle.pfs_check_faults.specs.ShapeFaults.{CutLaw, OneCut};

/// A report is cut into blocks exactly where its phases and blocks are the script's and each journal has its shape; and
/// there is one such cut.
pub fn cuts()
    ensures exact { CutLaw }
    ensures one { OneCut }
{}

/// The numbers of changes, and of actions, are right exactly where each is one that its entry may have: each number
/// from 1 on stands once, and those of the actions rise along each session.
pub fn numbers()
    ensures chained { ChainLaw }
    ensures rising { RisingLaw }
{}

/// A report of the whole format is a run of its script exactly where all twelve rules are kept.
pub fn runs()
    ensures { RunLaw }
{}

/// A report is judged in one way: good, or wrong by one rule at one line.
pub fn judgements()
    ensures { OneJudgement }
{}

/// The rules can be asked one after another: what keeps a rule behind those before it keeps all before the next one, and
/// behind the last one all.
pub fn order()
    ensures first { FirstRule }
    ensures next { NextRule }
    ensures last { LastRule }
{}

/// The report of a run of three sessions, with one change each: which line fails.
pub fn worked()
    ensures shapes { WorkedShapes }
    ensures faults { WorkedCases }
{}
