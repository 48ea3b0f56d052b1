//! Sessions that run one after another keep the rules of a run.

ghost use Rattle.pfs_law_plain.specs.PhaseStore.{LeftLaw};
ghost use Rattle.pfs_law_plain.specs.RunRules.{RuledLaw};

/// Sessions that run one after another on a plain store, with the administration that is the fold of their actions,
/// write journals that keep all rules of a run. What the rules go by is the setting, the labels of the actions as the
/// store has them, the contents of its rows, and the facts of each session's events.
pub fn ruled()
    ensures { RuledLaw }
{
    pfs_stat::laws::merge();
}

/// The store as a phase leaves it, by what is printed up to the phase: each row has had the changes that are printed,
/// is free where these say so, and holds the content of its version; each switch word was set as often, to the flags
/// of its last set; and the labels are the first of all labels, as many as actions are printed.
pub fn left()
    ensures { LeftLaw }
{}
