//! Laws of the definitions.

ghost use Rattle.std.specs.Prelude.{◌≡◌, ◌≢◌, ◌<◌, ◌++◌, ◌↔◌, ℕ, List, true, map, All, AllPairs, Contains};
ghost use Rattle.pfs_rows.specs.declared.table.Reading.{Reading};
ghost use Rattle.pfs_rows.specs.declared.table.Table.{Table};
ghost use Rattle.pfs_readsets.specs.declared.target.Target.{Target};
ghost use Rattle.pfs_readsets.specs.declared.target.Target.TheVariants.{Row, Word};
ghost use Rattle.pfs_readsets.specs.TablePlaces.{Scope};
ghost use Rattle.pfs_readsets.specs.ReadSets.{read_set, row_test, word_test};

/// A read set is rows and then words, each ascending, rows below 14,242 and words below 160.
pub fn in_order()
    ensures { (scope : Scope) (table : Table) (readings : List Reading) → (rows words : List ℕ)
        × (read_set scope table readings ≡ map Row rows ++ map Word words)
        × AllPairs (λ a b. a < b) rows × AllPairs (λ a b. a < b) words
        × All (λ row. row < 14242) rows × All (λ word. word < 160) words }
{}

/// A read set has a row exactly where it is one of the board's and the table, by the setting and the
/// infos that were Whole, reads it; and a word likewise.
pub fn members()
    ensures rows { (scope : Scope) (table : Table) (readings : List Reading) (row : ℕ)
        → Contains (read_set scope table readings) (Row row)
        ↔ ((row < 14242) × (row_test scope table readings row ≡ true)) }
    ensures words { (scope : Scope) (table : Table) (readings : List Reading) (word : ℕ)
        → Contains (read_set scope table readings) (Word word)
        ↔ ((word < 160) × (word_test scope table readings word ≡ true)) }
{}

/// No row and no word stands in a read set twice.
pub fn once()
    ensures { (scope : Scope) (table : Table) (readings : List Reading)
        → AllPairs (λ (a b : Target). a ≢ b) (read_set scope table readings) }
{}
