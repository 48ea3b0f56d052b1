//! What holds of all summary numbers, whatever events they come from.

ghost use Rattle.pfs_stat.specs.Stat.{MergeIsMonoid, WordsAgree};

/// `merge` with `zero` is a commutative monoid on the numbers that fit 64 bits, so rows may be put
/// together in any order and grouping. The rows that `zero`, `of_event` and `merge` give fit.
pub fn merge()
    ensures { MergeIsMonoid }
{}

/// A slot's words give back the numbers that they were made from.
pub fn words()
    ensures { WordsAgree }
{}
