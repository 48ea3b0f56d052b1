//! Laws of the definitions.

ghost use Rattle.pfs_runs.specs.ScriptExamples.{WorkedScript};
ghost use Rattle.pfs_runs.specs.RunExamples.{WorkedBlocks, WorkedEnds};
ghost use Rattle.pfs_runs.specs.SelectExamples.{WorkedAnswers};

/// A script of two sessions and two phases, worked: which lines its journals go by, what each action is, and the facts
/// of its event.
pub fn worked()
    ensures { WorkedScript }
{}

/// A run of three sessions and three phases, worked: its report has the script's phases and blocks, its journals have the
/// right shape, and its actions have their labels.
pub fn worked_blocks()
    ensures { WorkedBlocks }
{}

/// What stands in rows, words and counters of the worked run under each phase's end.
pub fn worked_end()
    ensures { WorkedEnds }
{}

/// A SELECT on the rows of `setup_actors`, worked: which answer stands at its line, and that none is missing there, has
/// another number of rows or stands elsewhere.
pub fn worked_answers()
    ensures { WorkedAnswers }
{}
