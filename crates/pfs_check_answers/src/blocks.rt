//! The SELECTs of a block, judged.

ghost use Rattle.std.specs.Prelude.{ℕ, List, map, IfOk};
ghost use Rattle.pfs_admin.specs.AdministrationStates.{State};
ghost use Rattle.pfs_check_parts.specs.Parts.{pieces};
ghost use Rattle.pfs_model.specs.EntryPlaces.{Placed};
ghost use Rattle.pfs_runs.specs.SelectAnswers.{IsAnswered};
ghost use Rattle.pfs_check_answers.specs.BlockSelects.{AreAsked, AreJudged, selection_by};

use crate::NoMemory;
use crate::block_lines::{Spot, Step, judge_line};
use crate::shows::Shows;
use crate::versions::Versions;
use pfs_classes::Setting;
use pfs_journal::EntryList;
use pfs_text::{Rowset, Text};
use std::alloc::Global;

/// Judges the SELECTs of a block, by the texts of its lines, None at one that is no SQL, the places behind the entries
/// of each in the journal, and the answers. None where all are answered rightly; else the first line of the report that
/// is wrong, where the line of the first entry has this number. Err where memory runs out.
pub fn judge_block<V: Versions, S: Shows>(
    alloc: Global,
    setting: &Setting,
    versions: &V,
    shows: &S,
    texts: &[Option<&Text>],
    ends: &[usize],
    entries: &EntryList,
    answers: &[Rowset],
    first: u64,
) -> Result<Option<u64>, NoMemory>
    ensures { (all : List Placed) → (content : ℕ → ℕ → List ℕ) → (flags : ℕ → ℕ → ℕ) → (before : ℕ → State)
        → V.knows versions.now all content flags → S.knows shows.now before
        → AreAsked all (map selection_by texts.now) (pieces 0 ends.now entries.now) answers.now
        → IfOk result (AreJudged setting.now (IsAnswered setting.now content flags before) first
        (map selection_by texts.now) (pieces 0 ends.now entries.now) answers.now) }
{
    let mut spot = Spot {
        line: first,
        start: 0,
        answer: 0,
    };
    for (at, text) in texts.iter().enumerate() {
        let Some(end) = ends.get(at) else {
            return Ok(None);
        };
        let step = judge_line(
            alloc, setting, versions, shows, *text, entries, *end, answers, spot,
        )?;
        match step {
            Step::On(next) => spot = next,
            Step::Wrong(line) => return Ok(Some(line)),
        }
    }
    Ok(None)
}
