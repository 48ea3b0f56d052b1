//! Laws of the definitions.

ghost use Rattle.std.specs.Prelude.{◌≡◌, ◌++◌, ℕ, List, All};
ghost use Rattle.pfs_rows.specs.declared.table.Reading.{Reading};
ghost use Rattle.pfs_levels.specs.Calls.{Call};
ghost use Rattle.pfs_levels.specs.JointCalls.{changes_of, draws_of, sets_of};
ghost use Rattle.pfs_levels.specs.PlainStore.{AllAnswer, labels_after, ops_of};
ghost use Rattle.pfs_reader.specs.PlainReadings.{IsFound};
ghost use Rattle.pfs_reader.specs.Readings.{calls_of};

/// Readings change nothing, and draw nothing.
pub fn changes_nothing()
    ensures changes { (readings : List Reading) (calls : List Call)
        → changes_of (calls_of readings ++ calls) ≡ changes_of calls }
    ensures ops { (readings : List Reading) (calls : List Call) → ops_of (calls_of readings ++ calls) ≡ ops_of calls }
    ensures sets { (readings : List Reading) (calls : List Call)
        → sets_of (calls_of readings ++ calls) ≡ sets_of calls }
    ensures draws { (readings : List Reading) (calls : List Call)
        → draws_of (calls_of readings ++ calls) ≡ draws_of calls }
    ensures labels { (readings : List Reading) (calls : List Call)
        → labels_after (calls_of readings ++ calls) ≡ labels_after calls }
{}

/// Readings of a plain store, however many came between, find what the calls before all of them left: of a row its
/// last version with the content there, or that it is free, and of a word its last version with the flags there.
pub fn finds_what_stands()
    ensures { (flags : List ℕ) (readings : List Reading) (calls : List Call)
        → AllAnswer flags (calls_of readings ++ calls) → All (IsFound flags calls) readings }
{}
