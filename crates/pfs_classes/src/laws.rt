//! Laws of the definitions.

ghost use Rattle.std.specs.Prelude.{◌≡◌, ◌↔◌, ◌<◌, List, ℕ, Contains, length, Some, slice_get};
ghost use Rattle.pfs_names.specs.InternedTexts.{Interns};
ghost use Rattle.pfs_classes.specs.declared.kind.Kind.{Kind};
ghost use Rattle.pfs_classes.specs.declared.classes.Class.{Class};
ghost use Rattle.pfs_classes.specs.Kinds.{Fits, kind_of, kind_order};
ghost use Rattle.pfs_classes.specs.Registry.{Registry, class_at};
ghost use Rattle.pfs_classes.specs.Builtins.{Row, builtins};
ghost use Rattle.pfs_classes.specs.Settings.{ComesFrom, HasNames};

use crate::Kind;

/// A name has one kind at most.
pub fn one_kind()
    ensures { (name : List ℕ) (a b : Kind) → Fits name a → Fits name b → a ≡ b }
{}

/// The kind that is computed for a name is the one that the name has.
pub fn computed_kind()
    ensures { (name : List ℕ) (kind : Kind) → kind_of name ≡ Some kind ↔ Fits name kind }
{
    one_kind();
}

/// Each kind stands in `Kind::ALL` at its place in their order.
pub fn all_kinds_in_order()
    ensures { (kind : Kind) → slice_get Kind.ALL (kind_order kind) ≡ Some kind }
{}

/// Each row of the built-in list has the kind of its name.
pub fn builtin_kinds()
    ensures { (row : Row) → Contains builtins row → Fits row.name row.kind }
{}

/// A register that comes from the built-in list over some names does so over more names.
pub fn more_names()
    ensures { (old new : List (List ℕ)) (text : List ℕ) (r : Registry) → Interns old new text → ComesFrom old r
        → ComesFrom new r }
{}

/// The names of a register that comes from the built-in list over some names are of these names,
/// so that the name of the class of each id may be asked for.
pub fn known_names()
    ensures come { (texts : List (List ℕ)) (r : Registry) → ComesFrom texts r → HasNames texts r }
    ensures class { (texts : List (List ℕ)) (r : Registry) (id : ℕ) (class : Class) → HasNames texts r
        → class_at r id ≡ Some class → class.name < length texts }
{}
