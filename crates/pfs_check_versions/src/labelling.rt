//! The labels of actions.

ghost use Rattle.std.specs.Prelude.{ℕ, ◌≡◌, ◌<◌, length, IfOk};
ghost use Rattle.pfs_model.specs.Chains.{Each};
ghost use Rattle.pfs_check_versions.specs.LinkTests.{LinkedAt};
ghost use Rattle.pfs_check_versions.specs.ActionLabels.{AreLabelled, IsAction};

use crate::NoMemory;
use crate::changes::PlacedChange;
use crate::counts::count_one;
use pfs_board::Label;
use std::alloc::Global;
use std::collections::BTreeMap;

/// The labels of actions, by their numbers: the session, and which of its actions it is, counted from 1.
pub(crate) fn label_actions(alloc: Global, actions: &[PlacedChange]) -> Result<Vec<Label>, NoMemory>
    requires linked { (place : ℕ) → place < length actions.now → LinkedAt actions.now place }
    requires rows { Each IsAction actions.now }
    ensures { IfOk result (λ labels. AreLabelled actions.now labels.items) }
{
    let mut counts = BTreeMap::new(alloc);
    let mut labels = vec![in alloc; Label {
        session: 0,
        line: 0
    }; actions.len()]?;
    for place in 0..actions.len() {
        let one = actions[place];
        let line = count_one(&mut counts, one.session)?;
        labels[(one.change.version - 1) as usize] = Label {
            session: one.session,
            line,
        };
    }
    Ok(labels)
}
