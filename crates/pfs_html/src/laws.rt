//! What a page's texts are, in a reader's words. Nothing here runs.

ghost use Rattle.std.specs.Prelude.{ℕ, List, ◌≡◌, ◌<◌, ◌^◌, ◌∷◌, length, map, true};
ghost use Rattle.std.specs.List.{All, list_all};
ghost use Rattle.std.specs.List.Sorted.{IsPermutation};
ghost use Rattle.pfs_journal.specs.declared.report.PhaseParts.{PhaseParts};
ghost use Rattle.pfs_text.specs.declared.values.RowValue.{RowValue};
ghost use Rattle.pfs_view.specs.ColumnHeadings.{heading_text};
ghost use Rattle.pfs_view.specs.Grids.{cell_text};
ghost use Rattle.pfs_view.specs.declared.columns.Headings.{Headings};
ghost use Rattle.pfs_view.specs.declared.columns.Times.TheVariants.{Units};
ghost use Rattle.pfs_html.specs.Cells.{places_below};
ghost use Rattle.pfs_html.specs.Escapes.{escaped, is_plain, seen};
ghost use Rattle.pfs_html.specs.Rankings.{Falls, by_time, number_at, time_at};
ghost use Rattle.pfs_html.specs.Pages.{phases_html};
ghost use Rattle.pfs_html.specs.Readings.{phase_title, phases_seen, rows_seen};
ghost use Rattle.pfs_html.specs.Tables.{all_places, table_html};

/// Whatever a text has, no byte of it in a page can end a cell or a tag's value, or begin a tag.
pub fn texts_stay_texts()
    ensures { (text : List ℕ) → list_all is_plain (escaped text) ≡ true }
{}

/// A reader of the page sees the text itself.
pub fn texts_are_seen()
    ensures { (text : List ℕ) → seen (escaped text) ≡ text }
{}

/// The rows of a ranking are all rows of the table, each once, and no time is less than one behind it.
pub fn ranks_are_right()
    ensures { (column : ℕ) (rows : List (List RowValue)) → All (λ row. number_at column row < 2 ^ 64) rows
        → IsPermutation (places_below (length rows)) (by_time column rows)
        × Falls (time_at column rows) (by_time column rows) }
{}

/// A reader of a table's page sees first the row of its headings, and then its rows in their order: of each the texts of
/// its values, one for each, behind as many others as its column. So no row has a cell for a value that isn't there.
pub fn tables_are_seen()
    ensures { (headings : Headings) (rows : List (List RowValue)) → rows_seen (table_html headings rows)
        ≡ map (heading_text headings) (all_places headings rows)
        ∷ map (λ row. map (cell_text headings Units row) (places_below (length row))) rows }
{}

/// A reader of a page's phases sees a heading for each, in the report's order, and no other heading of a phase.
pub fn phases_stand_in_order()
    ensures { (phases : List PhaseParts) → phases_seen (phases_html phases) ≡ map phase_title phases }
{}
