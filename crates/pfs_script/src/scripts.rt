//! A script in hand.

ghost use Rattle.std.specs.Prelude.{List, ℕ};
ghost use Rattle.pfs_script.specs.Scripts.{IsScript};

use crate::blocks::PhaseList;
use pfs_classes::Setting;

/// A script: what its lines before the first phase fix, and its phases. The type keeps that some bytes
/// give it, so that every rule of a script holds of any in hand.
#[derive(Drop)]
pub struct Script {
    /// Names, classes, limits and the consumers' opening flags.
    pub setting: Setting,
    /// The phases, in order.
    pub phases: PhaseList,
    pub ghost given: { ∥ ((text : List ℕ) × IsScript text setting phases) ∥₁ },
}
