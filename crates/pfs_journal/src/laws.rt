//! What follows from the definitions for all values.

ghost use Rattle.pfs_journal.specs.FirstWrongLine.{OneLineIsWrong};
ghost use Rattle.pfs_journal.specs.OneSpelling.{NoSpellingIsAFront, SpelledByLines, WrittenIsRead};

/// No spelling of a report is a proper front of another.
pub fn one_report()
    ensures { NoSpellingIsAFront }
{}

/// What is written of a report, with numbers below 2^64, is wrong at no line, and no other such report
/// is spelled so: it is read again as that report, or memory runs out.
pub fn written_is_read()
    ensures { WrittenIsRead }
{}

/// At most one line of a text is the first wrong one.
pub fn one_wrong_line()
    ensures { OneLineIsWrong }
{}

/// A report is spelled by its lines.
pub fn spelled_by_lines()
    ensures { SpelledByLines }
{}
