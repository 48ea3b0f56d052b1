//! The lines of a phase's end.

ghost use Rattle.std.specs.Prelude.{◌≡◌, ◌+◌, length, IfOk};
ghost use Rattle.std.specs.List.{flat_map};
ghost use Rattle.pfs_journal.specs.ReportLines.{block_lines};

use crate::NoMemory;
use pfs_check_line_numbers::{behind, behind_block};
use pfs_journal::PhaseParts;

/// The number of a phase's line `final`, where the phase's own line has this one.
pub(crate) fn final_line(first: u64, report: &PhaseParts) -> Result<u64, NoMemory>
    ensures { IfOk result (λ line. line ≡ first + 1 + length (flat_map block_lines report.now.blocks)) }
{
    let from = behind(first, 1)?;
    let mut line = from;
    for block in report.blocks.as_slice() {
        let end = behind_block(line, block)?;
        line = end;
    }
    Ok(line)
}
