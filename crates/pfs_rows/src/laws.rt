//! Laws of the definitions.

ghost use Rattle.std.specs.Prelude.{◌≡◌, ◌<◌, ◌≤◌, ◌↔◌, ℕ, Some, None, slice_get};
ghost use Rattle.pfs_rows.specs.declared.limits.Limit.{Limit};
ghost use Rattle.pfs_rows.specs.declared.limits.Limits.{Limits};
ghost use Rattle.pfs_rows.specs.declared.place.Place.{Place};
ghost use Rattle.pfs_rows.specs.declared.table.Table.{Table};
ghost use Rattle.pfs_rows.specs.declared.table.TableKind.{TableKind};
ghost use Rattle.pfs_rows.specs.Limits.{AreInRange, IsWithin, limit_name};
ghost use Rattle.pfs_rows.specs.Rows.{IsPlace, row_number, place_at};
ghost use Rattle.pfs_rows.specs.Tables.{kind_number, table_name};

use crate::TableKind;

/// Each place has one row below 14,242, each such row is one place, and the two ways undo each
/// other.
pub fn rows()
    ensures below { (p : Place) → IsPlace p → row_number p < 14242 }
    ensures back { (p : Place) → IsPlace p → place_at (row_number p) ≡ Some p }
    ensures found { (row : ℕ) → row < 14242 → (p : Place) × IsPlace p × (row_number p ≡ row) }
    ensures differ { (p q : Place) → IsPlace p → IsPlace q → row_number p ≡ row_number q → p ≡ q }
    ensures none { (row : ℕ) → 14242 ≤ row → place_at row ≡ None }
{}

/// The limits are in their ranges exactly where each one is.
pub fn ranges()
    ensures { (l : Limits) → AreInRange l ↔ ((limit : Limit) → IsWithin l limit) }
{}

/// Different limits have different names.
pub fn limit_names_differ()
    ensures { (a b : Limit) → limit_name a ≡ limit_name b → a ≡ b }
{}

/// Different tables have different names.
pub fn table_names_differ()
    ensures { (a b : Table) → table_name a ≡ table_name b → a ≡ b }
{}

/// Each kind of events stands in `TableKind::ALL` at the place of its number.
pub fn all_kinds_by_number()
    ensures { (kind : TableKind) → slice_get TableKind.ALL (kind_number kind) ≡ Some kind }
{}
