//! Laws of the definitions.

ghost use Rattle.std.specs.Prelude.{◌≡◌, ◌↔◌, ℕ, List, Option, Contains};
ghost use Rattle.std.specs.List.Sorted.{IsStrictlySortedBy};
ghost use Rattle.std.specs.Map.{keys_of};
ghost use Rattle.pfs_rows.specs.declared.table.SummaryTable.{SummaryTable};
ghost use Rattle.pfs_rows.specs.declared.table.TableKind.{TableKind};
ghost use Rattle.pfs_classes.specs.declared.setting.Setting.{Setting};
ghost use Rattle.pfs_text.specs.declared.values.RowValue.{RowValue};
ghost use Rattle.pfs_summaries.specs.declared.heads.RowKey.{RowKey};
ghost use Rattle.pfs_summaries.specs.declared.tallies.Tally.{Tally};
ghost use Rattle.pfs_summaries.specs.Heads.{row_cmp};
ghost use Rattle.pfs_summaries.specs.Summaries.{IsGiven, ordered_rows};

/// The rows of a summary stand in ascending order of their keys, and no two have one key. They are
/// exactly those that the readings give: of each place that has rows and each class that is listed
/// there one.
pub fn rows()
    ensures ascending { (setting : Setting) (kind : TableKind) (which : SummaryTable)
        (infos : List (Option (List ℕ))) (tally : ℕ → ℕ → Tally)
        → IsStrictlySortedBy row_cmp (keys_of (ordered_rows setting kind which infos tally)) }
    ensures given { (setting : Setting) (kind : TableKind) (which : SummaryTable)
        (infos : List (Option (List ℕ))) (tally : ℕ → ℕ → Tally) (row : RowKey × List RowValue)
        → Contains (ordered_rows setting kind which infos tally) row ↔ IsGiven setting kind which infos tally row }
{}
