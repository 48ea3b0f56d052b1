//! The rows of a run as they are at first.

ghost use Rattle.std.specs.Prelude.{◌≡◌, ◌<◌};
ghost use Rattle.pfs_board_store.specs.RootLaws.{IsFirstRow};
ghost use Rattle.pfs_board_opening.specs.FirstRows.{first_rows};

use pfs_board::{Opening, Openings};
use pfs_stat::zero;

const ROWS: u64 = 14_242;

// Row 0, cells and digest rows are allocated, and those but row 0 have counted nothing; infos and ring places are free.
fn first_row(row: u64) -> Opening
    requires { row < 14242 }
    ensures { IsFirstRow row result }
{
    let is_cell = 129 <= row && row < 8_450;
    Opening {
        allocated: row == 0 || is_cell,
        content: if is_cell { zero().to_words() } else { [0; 16] },
    }
}

/// All of them, each made as it is asked for.
#[derive(Drop)]
pub(crate) struct FirstRows {}

impl Openings for FirstRows {
    ghost rows = { λ all. first_rows };

    fn count(&self) -> u64 {
        ROWS
    }

    fn row(&self, at: u64) -> Opening {
        first_row(at)
    }
}
