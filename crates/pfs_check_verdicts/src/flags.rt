//! The flags of the switch words at their versions.

ghost use Rattle.std.specs.Prelude.{ℕ, ◌≡◌, ◌+◌, [], cond, slice_index_or, Some, None, IfOk, OnOk};
ghost use Rattle.std.specs.BTreeMap.{get};
ghost use Rattle.pfs_model.specs.SetupFlags.{flags_seen};
ghost use Rattle.pfs_check_verdicts.specs.declared.flags.WordVersion.{WordVersion};
ghost use Rattle.pfs_check_verdicts.specs.PrintedSets.{AreFlagsSoFar, AreSetsOf, GivesFlags, flags_kept, is_same_word, or_first, set_to, word_cmp};

use crate::NoMemory;
use pfs_admin::opening_flags;
use pfs_classes::Setting;
use pfs_event::Entry;
use pfs_matching::Objects;
use std::alloc::Global;
use std::collections::BTreeMap;

/// A switch word at a version. A printed thread slot may be any number, so a word's may be above 64 bits.
#[derive(Clone, Copy, Debug, PartialEq, Eq, PartialOrd, Ord)]
pub struct WordVersion {
    pub word: u128,
    pub version: u64,
}

/// The flags of the switch words of a report: those of each printed set, and those at first.
#[derive(Drop)]
pub struct PrintedFlags {
    /// By the number of the word.
    pub opening: Vec<u16>,
    /// The flags of the first set of a word at a version.
    pub sets: BTreeMap<WordVersion, u64>,
}

// The flags of a word at first; 0 of one that isn't there.
fn opening_at(opening: &[u16], word: u128) -> u64
    ensures { result ≡ slice_index_or opening.now word 0 }
{
    if word >= opening.len() as u128 {
        return 0;
    }
    u64::from(opening[word as usize])
}

fn word_of(first: u64, number: u64) -> u128
    ensures { result ≡ first + number }
{
    first as u128 + number as u128
}

// Keeps the flags of a set, where it is the first of its word at its version.
fn put_first(
    sets: &mut BTreeMap<WordVersion, u64>,
    set: WordVersion,
    flags: u64,
) -> Result<(), NoMemory>
    ensures { OnOk result ((at : WordVersion) → get word_cmp sets.new at
        ≡ or_first (get word_cmp sets.old at) (cond (is_same_word set at) (Some flags) None)) }
{
    if sets.contains_key(&set) {
        return Ok(());
    }
    sets.insert(set, flags)?;
    Ok(())
}

/// One entry more, with the set that it is. Err where memory runs out.
pub(crate) fn note_set(sets: &mut BTreeMap<WordVersion, u64>, entry: &Entry) -> Result<(), NoMemory>
    ensures { OnOk result ((at : WordVersion) → get word_cmp sets.new at
        ≡ or_first (get word_cmp sets.old at) (set_to at entry.now)) }
{
    match *entry {
        Entry::Set {
            word,
            version,
            flags,
        } => put_first(
            sets,
            WordVersion {
                word: word as u128,
                version,
            },
            flags,
        ),
        _ => Ok(()),
    }
}

fn no_sets(alloc: Global) -> BTreeMap<WordVersion, u64>
    ensures { AreSetsOf [] result }
{
    BTreeMap::new(alloc)
}

impl PrintedFlags {
    /// Of no entries. Err where memory runs out for the words at first.
    pub(crate) fn open(alloc: Global, setting: &Setting) -> Result<PrintedFlags, NoMemory>
        ensures { IfOk result (AreFlagsSoFar setting.now []) }
    {
        let objects = Objects::open(alloc)?;
        let opening = opening_flags(alloc, setting, &objects)?;
        Ok(PrintedFlags {
            opening,
            sets: no_sets(alloc),
        })
    }

    fn flags_at(&self, word: u128, version: u64) -> u64
        ensures { result ≡ flags_kept self.now word version }
    {
        match self.sets.get(&WordVersion { word, version }) {
            Some(flags) => *flags,
            None => opening_at(self.opening.as_slice(), word),
        }
    }

    /// What an event saw of a word that was loaded at a version: of those words that begin at `first` the one of this
    /// number. 0 where it names none.
    pub fn seen(&self, first: u64, number: Option<u64>, version: Option<u64>) -> u64
        ensures { (flags : ℕ → ℕ → ℕ) → GivesFlags flags self.now
            → result ≡ flags_seen flags (λ at. first + at) number version }
    {
        let Some(number) = number else {
            return 0;
        };
        let Some(version) = version else {
            return 0;
        };
        self.flags_at(word_of(first, number), version)
    }
}
