//! The run that is played over these tables, as contracts name it.

ghost use Rattle.pfs_admin.specs.declared.changes.Change.TheVariants.{Quit};
ghost use Rattle.pfs_blocks.proofs.SomeSetting.{some_setting};
ghost use Rattle.pfs_board_root.specs.Roots.{blank_table};

use pfs_admin::Named;
use pfs_board_admin::Shared;
use std::marker::{Brand, PhantomData};

/// A run whose setting and changes are picked where its script is known, and its setup words once they are open. No
/// value has these at run time.
pub trait Picked: Send + Sync {
    ghost use Rattle.atomic_table.specs.Seated.{TableId};
    ghost use Rattle.pfs_board.specs.declared.view.Label.{Label};
    ghost use Rattle.pfs_classes.specs.declared.setting.Setting.{Setting};
    ghost use Rattle.pfs_admin.specs.declared.changes.Change.{Change};

    /// What the run's script fixes.
    ghost setting: { Setting };

    /// What the action of each label changes.
    ghost change: { Label → Change };

    /// Which setup words its actors load.
    ghost switches: { TableId };
}

// Each call at this type picks its own.
impl Picked for Brand {
    ghost setting = { some_setting };

    ghost change = { λ label. Quit };

    ghost switches = { blank_table };
}

/// That run, as an actor and the board's desk name it.
pub struct Run<P: Picked> {
    of: PhantomData<P>,
}

impl<P: Picked> Named for Run<P> {
    ghost setting = { P.setting };

    ghost change = { P.change };
}

impl<P: Picked> Shared for Run<P> {
    ghost switches = { P.switches };
}
