//! What entries of a SELECT tell of the rows and words that it reads.

ghost use Rattle.std.specs.Prelude.{◌≡◌, ℕ, List, true, false, MatchOption};
ghost use Rattle.std.specs.Option.{IfSome};
ghost use Rattle.pfs_model.specs.EntryPlaces.{Placed};
ghost use Rattle.pfs_readsets.specs.ReadSets.{target_of};
ghost use Rattle.pfs_runs.specs.SelectAnswers.{IsShown};
ghost use Rattle.pfs_session.specs.Inquiries.{reading_entry};
ghost use Rattle.pfs_check_answers.specs.SelectReadings.{IsOther, NamesHad, TellsNone, Tells};

use crate::versions::Versions;
use pfs_event::Entry;
use pfs_readsets::Target;
use pfs_rows::{Reading, Seen};

// The reading that an entry tells; none where it tells of none. It has the content, or the flags, at its version; the
// lock word of a FREE row isn't told, and is 0.
fn reading_in<V: Versions>(versions: &V, entry: &Entry) -> Option<Reading>
    ensures told { MatchOption result (TellsNone entry.now) (λ reading. reading_entry reading ≡ entry.now) }
    ensures shown { (all : List Placed) → (content : ℕ → ℕ → List ℕ) → (flags : ℕ → ℕ → ℕ)
        → V.knows versions.now all content flags → NamesHad all entry.now → IfSome result (IsShown content flags) }
{
    match *entry {
        Entry::Seen { row, version } => {
            let content = versions.content(row, version);
            Some(Reading::Slot {
                row,
                seen: Seen::Whole { version, content },
            })
        }
        Entry::Vacant { row } => Some(Reading::Slot {
            row,
            seen: Seen::Free { word: 0 },
        }),
        Entry::Busy { row, first, second } => Some(Reading::Slot {
            row,
            seen: Seen::Busy { first, second },
        }),
        Entry::Saw { word, version } => {
            let flags = versions.flags(word, version);
            Some(Reading::Word {
                word,
                version,
                flags,
            })
        }
        _ => None,
    }
}

fn is_same(one: Target, other: Target) -> bool
    ensures same { result ≡ true → one ≡ other }
    ensures other { result ≡ false → one ≡ other → ⊥ }
{
    match one {
        Target::Row(row) => match other {
            Target::Row(number) => row == number,
            Target::Word(_) => false,
        },
        Target::Word(word) => match other {
            Target::Word(number) => word == number,
            Target::Row(_) => false,
        },
    }
}

/// The reading of a row or of a word that an entry tells; none where it tells of none or of another.
pub(crate) fn reading_of<V: Versions>(
    versions: &V,
    target: Target,
    entry: &Entry,
) -> Option<Reading>
    ensures told { MatchOption result (IsOther target entry.now) (Tells target entry.now) }
    ensures shown { (all : List Placed) → (content : ℕ → ℕ → List ℕ) → (flags : ℕ → ℕ → ℕ)
        → V.knows versions.now all content flags → NamesHad all entry.now → IfSome result (IsShown content flags) }
{
    let reading = reading_in(versions, entry)?;
    if is_same(Target::of(&reading), target) {
        Some(reading)
    } else {
        None
    }
}
