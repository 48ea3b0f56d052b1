//! What follows from the definitions for all values.

ghost use Rattle.std.specs.Prelude.{ℕ, List, Option};
ghost use Rattle.pfs_matching.specs.declared.faults.FlagChange.{FlagChange};
ghost use Rattle.pfs_containers.specs.declared.containers.Connection.{Connection};
ghost use Rattle.pfs_matching.specs.declared.object_rows.ObjectRow.{ObjectRow};
ghost use Rattle.pfs_text.specs.declared.conditions.Test.{Test};
ghost use Rattle.pfs_setups.specs.SetupRows.{Naming};
ghost use Rattle.pfs_setups.specs.ChangeExamples.{WorkedChanges};
ghost use Rattle.pfs_setups.specs.ChangeLaws.{AreSelected, KeysDecide, OtherWordsStay, SetsConsumers, SetsFlags};

/// The rows that a change meets have the values that a SELECT shows.
pub fn rows_are_selected()
    ensures { AreSelected }
{}

/// The flags that an UPDATE names become as asked, and others stay.
pub fn named_flags_change()
    ensures { (change : FlagChange) (flags : ℕ) → SetsFlags change flags }
{}

/// Of word 0 the flags of the consumers that are met become as asked, and others stay.
pub fn met_consumers_change()
    ensures { (tests : List Test) (flags : ℕ) → SetsConsumers tests flags }
{}

/// An UPDATE changes no word but those of its table's rows, and none of `setup_actors` changes any.
pub fn other_words_stay()
    ensures { (n : Naming) (threads : List (Option Connection)) (objects : List ObjectRow) (change : FlagChange)
        (tests : List Test) (flags : ℕ) → OtherWordsStay n threads objects change tests flags }
{}

/// Updates, deletions and insertions, number by number.
pub fn changes_worked()
    ensures { WorkedChanges }
{}

/// A key is there exactly where a row has it.
pub fn keys_decide()
    ensures { KeysDecide }
{}
