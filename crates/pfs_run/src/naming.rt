//! The run that is played, as contracts name it.

ghost use Rattle.pfs_admin.specs.declared.changes.Change.TheVariants.{Quit};
ghost use Rattle.pfs_blocks.proofs.SomeSetting.{some_setting};

use pfs_admin::Named;
use std::marker::{Brand, PhantomData};

/// A run whose setting and changes are picked where its script is known. No value has these at run time.
pub trait Picked {
    ghost use Rattle.pfs_board.specs.declared.view.Label.{Label};
    ghost use Rattle.pfs_classes.specs.declared.setting.Setting.{Setting};
    ghost use Rattle.pfs_admin.specs.declared.changes.Change.{Change};

    /// What the run's script fixes.
    ghost setting: { Setting };

    /// What the action of each label changes.
    ghost change: { Label → Change };
}

// Each call at this type picks its own.
impl Picked for Brand {
    ghost setting = { some_setting };

    ghost change = { λ label. Quit };
}

/// That run, as an actor names it.
pub struct Run<P: Picked> {
    of: PhantomData<P>,
}

impl<P: Picked> Named for Run<P> {
    ghost setting = { P.setting };

    ghost change = { P.change };
}
