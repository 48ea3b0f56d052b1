//! What follows from the definitions for all values.
ghost use Rattle.std.specs.Prelude.{◌≡◌, Some, slice_get};
ghost use Rattle.pfs_matching.specs.declared.object_rows.ObjectKind.{ObjectKind};
ghost use Rattle.pfs_matching.specs.ActorRules.{ActorsDecideBest};
ghost use Rattle.pfs_matching.specs.ObjectRules.{KindNamesDiffer, ObjectsDecideBest, kind_place};

use crate::ObjectKind;

/// A session's flags are those of the row that fits it best: of the earliest way that any row has, and among such
/// rows of the least ROLE by bytes. Where no row fits, they are NO and NO.
pub fn actors_decide_best()
    ensures { ActorsDecideBest }
{}

/// A table's flags are those of the row that fits it best: the only one that has the earliest way that any row has.
/// Where no row fits, they are NO and NO.
pub fn objects_decide_best()
    ensures { ObjectsDecideBest }
{}

/// Different kinds of objects have different names, and each stands in `ObjectKind::ALL` at its place.
pub fn object_kinds()
    ensures differ { KindNamesDiffer }
    ensures placed { (kind : ObjectKind) → slice_get ObjectKind.ALL (kind_place kind) ≡ Some kind }
{}
