//! What rows and switch words show at a phase's end.

ghost use Rattle.std.specs.Prelude.{ℕ, ◌≡◌, ◌+◌, ◌*◌, ◌<◌, ◌^◌, ◌==◌, ◌&&◌, ◌||◌};
ghost use Rattle.std.specs.BTreeMap.{get};
ghost use Rattle.pfs_check_ends.specs.StandingEnds.{Shows};
ghost use Rattle.pfs_check_floors.specs.ReleasedRows.{change_cmp, freed_by};
ghost use Rattle.pfs_check_verdicts.specs.PrintedSets.{GivesFlags};
ghost use Rattle.pfs_model.specs.Chains.{change_at, opens_free};
ghost use Rattle.pfs_readsets.specs.declared.target.Target.{Target};
ghost use Rattle.pfs_readsets.specs.declared.target.Target.TheVariants.{Row};
ghost use Rattle.pfs_rows.specs.declared.table.Reading.{Reading};
ghost use Rattle.pfs_rows.specs.declared.table.Reading.TheVariants.{Slot};

use crate::ends::Ends;
use pfs_check_finals::Standing;
use pfs_check_floors::opens_free;
use pfs_check_verdicts::PrintedFlags;
use pfs_model::Change;
use pfs_readsets::Target;
use pfs_rows::{Reading, Seen};
use std::collections::BTreeMap;

// Whether a row was released at a version up to a phase's end.
fn was_released(freed: &BTreeMap<Change, u64>, phase: u64, change: Change) -> bool
    ensures { result ≡ freed_by (get change_cmp freed.now change) (phase + 1) }
{
    match freed.get(&change) {
        Some(first) => *first <= phase,
        None => false,
    }
}

// Whether a row that has this version at a phase's end is FREE there.
fn is_free(freed: &BTreeMap<Change, u64>, phase: u64, row: u64, version: u64) -> bool
    ensures { result ≡ (freed_by (get change_cmp freed.now (change_at row version)) (phase + 1)
        || ((version == 0) && opens_free row)) }
{
    was_released(freed, phase, Change { row, version }) || (version == 0 && opens_free(row))
}

// The lock word of a FREE row at a version.
fn free_word(version: u64) -> u64
    ensures { version < 2 ^ 62 → result ≡ 4 * version }
{
    version.wrapping_mul(4)
}

fn low_bits(flags: u64) -> u16
    ensures { flags < 2 ^ 16 → result ≡ flags }
{
    (flags % 65_536) as u16
}

// The flags of a word at a version.
fn flags_at(flags: &PrintedFlags, word: u64, version: u64) -> u16
    ensures { (given : ℕ → ℕ → ℕ) → GivesFlags given flags.now → given word version < 2 ^ 16
        → result ≡ given word version }
{
    low_bits(flags.seen(0, Some(word), Some(version)))
}

impl Ends {
    // What a row shows at the end of a phase.
    fn row_at(&self, phase: u64, row: u64) -> Seen
        ensures { (shown : ℕ → Target → Reading) → Shows self.now shown → Slot row result ≡ shown phase (Row row) }
    {
        let version = self.sights.rows.floors.had(phase, row as u128);
        if is_free(&self.sights.rows.releases.freed, phase, row, version) {
            return Seen::Free {
                word: free_word(version),
            };
        }
        Seen::Whole {
            version,
            content: self.shelf.content(row, version),
        }
    }
}

impl Standing for Ends {
    ghost use Rattle.pfs_check_ends.specs.StandingEnds.{Shows};

    ghost stands = { λ ends shown. Shows ends shown };

    fn reading(&self, phase: u64, target: Target) -> Reading {
        match target {
            Target::Row(row) => Reading::Slot {
                row,
                seen: self.row_at(phase, row),
            },
            Target::Word(word) => {
                let version = self.sights.words.had(phase, word as u128);
                let flags = flags_at(&self.flags, word, version);
                Reading::Word {
                    word,
                    version,
                    flags,
                }
            }
        }
    }
}
