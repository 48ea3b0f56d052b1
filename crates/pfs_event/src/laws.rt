//! Laws of the definitions.

ghost use Rattle.std.specs.Prelude.{◌≡◌, ◌↔◌, ◌<◌, [], ◌∷◌, ◌++◌, List, Some};
ghost use Rattle.pfs_event.specs.declared.event.Event.{Event};
ghost use Rattle.pfs_event.specs.declared.kind.EventKind.{EventKind};
ghost use Rattle.pfs_event.specs.declared.open.Open.{Open};
ghost use Rattle.pfs_event.specs.declared.verdict.Verdict.{Verdict};
ghost use Rattle.pfs_event.specs.NestBrackets.{Step, Starts, ClosesNext, IsInside, Took, open_after};
ghost use Rattle.pfs_event.specs.NestingKinds.{nesting_number};
ghost use Rattle.pfs_event.specs.Nests.{OpenEvents};
ghost use Rattle.pfs_event.specs.Verdicts.{verdict_name};
ghost use Rattle.pfs_event.specs.EventWords.{words_of};

/// Different events have different words, so `of_words` gives back the very event of which
/// `to_words` made them.
pub fn words()
    ensures { (a b : Event) → words_of a ≡ words_of b → a ≡ b }
{}

/// Different kinds have different nesting numbers, and none has 0.
pub fn nesting_numbers_differ()
    ensures differ { (a b : EventKind) → nesting_number a ≡ nesting_number b → a ≡ b }
    ensures some { (kind : EventKind) → 0 < nesting_number kind }
{}

/// Different verdicts have different names.
pub fn verdict_names_differ()
    ensures { (a b : Verdict) → verdict_name a ≡ verdict_name b → a ≡ b }
{}

/// Starting and ending pairs as brackets do. After the steps that a nest took, those events are
/// open that `open_after` says, and the event that an end then gives is the one whose opening has
/// this end as its partner, the closing that brings the depth back. No other opening has.
pub fn brackets()
    ensures took { (old new : OpenEvents) → (steps : List Step) → Took old steps new
        → open_after steps old.events ≡ Some new.events }
    ensures pairs { (steps : List Step) → (what : Open) → (others : List Open)
        → (open_after steps [] ≡ Some (what ∷ others)) ↔ ClosesNext steps what others }
    ensures one { (before inside other between : List Step) → (what that : Open)
        → before ++ Starts what ∷ inside ≡ other ++ Starts that ∷ between → IsInside inside → IsInside between
        → before ≡ other }
{}
