//! Laws of what is due, entry by entry.

ghost use Rattle.pfs_check_dues.specs.DueRules.{BroughtLaw, FirstLaw, OwingLaw};

/// Each event is brought just where it is due where each entry pays what is left, and nothing is left at the end. Where
/// an entry is the first that doesn't pay, or something is left at the end, an event isn't brought; and the line behind
/// what is paid of it is the first such line.
pub fn dues()
    ensures brought { BroughtLaw }
    ensures owing { OwingLaw }
    ensures first { FirstLaw }
{}
