//! What is shown, in a reader's words. Nothing here runs.

ghost use Rattle.std.specs.Prelude.{ℕ, List, ◌≡◌, ◌<◌, ◌≤◌, [], length, max, slice_index, slice_index_or};
ghost use Rattle.std.specs.List.{flat_map};
ghost use Rattle.pfs_event.specs.declared.entry.Entry.{Entry};
ghost use Rattle.pfs_text.specs.declared.values.RowValue.{RowValue};
ghost use Rattle.pfs_view.specs.ColumnHeadings.{heading_text};
ghost use Rattle.pfs_view.specs.Grids.{cell_text, column_total, first_of, heading_line, heading_width, most_width, row_line, widths_of};
ghost use Rattle.pfs_view.specs.Readings.{cell_in, cell_start, room, trimmed};
ghost use Rattle.pfs_view.specs.TextOutcomes.{outcomes_of, place_shown, rows_total};
ghost use Rattle.pfs_view.specs.declared.columns.Headings.{Headings};
ghost use Rattle.pfs_view.specs.declared.columns.Times.{Times};

/// No cell of at most 64 characters is longer than its column.
pub fn cells_fit()
    ensures { (headings : Headings) (times : Times) (rows : List (List RowValue)) (at place : ℕ)
        → at < length rows → place < column_total headings rows
        → length (cell_text headings times (slice_index_or rows at []) place) ≤ most_width
        → length (cell_text headings times (slice_index_or rows at []) place)
        ≤ slice_index (widths_of headings times rows) place }
{}

/// Nor is a heading.
pub fn headings_fit()
    ensures { (headings : Headings) (times : Times) (rows : List (List RowValue)) (place : ℕ)
        → place < column_total headings rows
        → length (heading_text headings place) ≤ slice_index (widths_of headings times rows) place }
{}

/// No column is wider than its heading and than 64 characters, whatever its cells are.
pub fn columns_are_narrow()
    ensures { (headings : Headings) (times : Times) (rows : List (List RowValue)) (place : ℕ)
        → place < column_total headings rows
        → slice_index (widths_of headings times rows) place ≤ max (heading_width headings place) most_width }
{}

/// What stands in a row's line at a place, behind the room of the cells before it, is the text of the row's value
/// there, spaces at its ends aside.
pub fn cells_are_values()
    ensures { (headings : Headings) (times : Times) (widths : List ℕ) (row : List RowValue) (place : ℕ)
        → place < length row
        → trimmed (cell_in (room headings times widths row) (row_line headings times widths row) place)
        ≡ trimmed (cell_text headings times row place) }
{}

/// What stands in the line of the headings at a column's place is its heading.
pub fn headings_are_there()
    ensures { (headings : Headings) (times : Times) (rows : List (List RowValue)) (place : ℕ)
        → place < column_total headings rows
        → trimmed (cell_in (slice_index (widths_of headings times rows))
        (heading_line headings (widths_of headings times rows)) place) ≡ trimmed (heading_text headings place) }
{}

/// A cell begins under its heading where none before it in its row has more than 64 characters.
pub fn cells_stand_below()
    ensures { (headings : Headings) (times : Times) (rows : List (List RowValue)) (at place : ℕ)
        → at < length rows → place < column_total headings rows
        → ((k : ℕ) → k < place → length (cell_text headings times (slice_index_or rows at []) k) ≤ most_width)
        → cell_start (room headings times (widths_of headings times rows) (slice_index_or rows at [])) place
        ≡ cell_start (slice_index (widths_of headings times rows)) place }
{}

/// Each answer of rows is shown once, in order: of the texts that rows answered the first has the first answer, the
/// second the second, and so on.
pub fn answers_are_shown_once()
    ensures { (entries : List Entry)
        → flat_map place_shown (outcomes_of entries) ≡ first_of (λ (place : ℕ). place) (rows_total entries) }
{}
