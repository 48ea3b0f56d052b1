//! Laws of the definitions.

ghost use Rattle.std.specs.Prelude.{◌≡◌, ◌<◌, ◌^◌, ℕ, slice_get, Some};
ghost use Rattle.pfs_consumers.specs.declared.Consumer.{Consumer};
ghost use Rattle.pfs_consumers.specs.Tree.{bit_of, is_on, name_of, at_first};

use crate::{Consumer, Flags};

/// The opening word has each consumer as it is at first, bit 15 as 0, and is the only such word.
pub fn opening()
    ensures number { Flags.OPENING.0 ≡ 28888 }
    ensures flags { (c : Consumer) → is_on Flags.OPENING.0 c ≡ at_first c }
    ensures only { (word : ℕ) → word < 2 ^ 15 → ((c : Consumer) → is_on word c ≡ at_first c) → word ≡ Flags.OPENING.0 }
{}

/// Different consumers have different names.
pub fn names_differ()
    ensures { (c d : Consumer) → name_of c ≡ name_of d → c ≡ d }
{}

/// Each consumer stands in `Consumer::ALL` at its bit.
pub fn all_by_bit()
    ensures { (c : Consumer) → slice_get Consumer.ALL (bit_of c) ≡ Some c }
{}
