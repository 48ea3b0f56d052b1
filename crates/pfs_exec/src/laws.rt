//! What follows from the definitions for all values.
ghost use Rattle.std.specs.Prelude.{◌≡◌, ◌↔◌, List, IsTrue};
ghost use Rattle.pfs_text.specs.Conditions.{Meets};
ghost use Rattle.pfs_text.specs.declared.conditions.Shown.{Shown};
ghost use Rattle.pfs_text.specs.declared.conditions.TestKind.{TestKind};
ghost use Rattle.pfs_text.specs.declared.values.RowValue.{RowValue};
ghost use Rattle.pfs_exec.specs.declared.query.Select.{Select};
ghost use Rattle.pfs_exec.specs.Selections.{IsAnswer, meets_value, value_of};

/// The test of a value is true exactly where the value meets the condition.
pub fn tests_decide()
    ensures { (kind : TestKind) (shown : Shown) → IsTrue (meets_value kind (value_of shown)) ↔ Meets kind shown }
{
    pfs_text::laws::patterns();
}

/// A query has one answer over the same rows.
pub fn one_answer()
    ensures { (query : Select) (rows a b : List (List RowValue)) → IsAnswer query rows a → IsAnswer query rows b
        → a ≡ b }
{}
