//! What the labels of a run stand for.

/// A run, as contracts name it: no value has this at run time.
pub trait Named {
    ghost use Rattle.pfs_board.specs.declared.view.Label.{Label};
    ghost use Rattle.pfs_classes.specs.declared.setting.Setting.{Setting};
    ghost use Rattle.pfs_admin.specs.declared.changes.Change.{Change};

    /// What the run's script fixes.
    ghost setting: { Setting };

    /// What the action of each label changes.
    ghost change: { Label → Change };
}
