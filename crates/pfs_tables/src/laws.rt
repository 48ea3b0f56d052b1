//! Laws of the definitions.

ghost use Rattle.std.specs.Prelude.{◌≡◌, ◌≢◌, List, map, length, All, AllPairs, IsPermutation};
ghost use Rattle.std.specs.List.Sorted.{IsStrictlySortedBy};
ghost use Rattle.std.specs.Map.{keys_of};
ghost use Rattle.pfs_rows.specs.declared.table.Reading.{Reading};
ghost use Rattle.pfs_rows.specs.declared.table.Table.{Table};
ghost use Rattle.pfs_catalogue.specs.Columns.{columns_of};
ghost use Rattle.pfs_classes.specs.declared.setting.Setting.{Setting};
ghost use Rattle.pfs_readsets.specs.TablePlaces.{scope_of};
ghost use Rattle.pfs_readsets.specs.ReadSets.{IsReadSet, target_of};
ghost use Rattle.pfs_readsets.specs.declared.target.Target.{Target};
ghost use Rattle.pfs_text.specs.declared.values.RowValue.{RowValue};
ghost use Rattle.pfs_tables.specs.Fits.{IsRowOf};
ghost use Rattle.pfs_tables.specs.TableOrders.{row_cmp};
ghost use Rattle.pfs_tables.specs.PlaceTables.{given_rows, sorted_rows};
ghost use Rattle.pfs_tables.specs.ListedRows.{listed_rows};

/// Each row that a table shows has as many values as the table has columns, a number or NULL in a
/// number's column and a text or NULL in a text's.
pub fn rows_fit()
    ensures count { (setting : Setting) (table : Table) (readings : List Reading)
        → All (λ (row : List RowValue). length row ≡ length (columns_of table)) (listed_rows setting table readings) }
    ensures kinds { (setting : Setting) (table : Table) (readings : List Reading)
        → All (IsRowOf table) (listed_rows setting table readings) }
{}

/// The rows of a table whose rows each show one place or one word stand in ascending order of their
/// keys, and no two have one key. Where no two readings are of one row or one word, as in a read set,
/// each row that the readings give is among them once, and no other.
pub fn rows_stand()
    ensures ascending { (setting : Setting) (table : Table) (readings : List Reading)
        → IsStrictlySortedBy row_cmp (keys_of (sorted_rows setting table readings)) }
    ensures kept { (setting : Setting) (table : Table) (readings : List Reading)
        → AllPairs (λ (a b : Target). a ≢ b) (map target_of readings)
        → IsPermutation (given_rows setting table readings) (sorted_rows setting table readings) }
    ensures of_read_set { (setting : Setting) (table : Table) (readings : List Reading)
        → IsReadSet (scope_of setting) table readings
        → IsPermutation (given_rows setting table readings) (sorted_rows setting table readings) }
{}
