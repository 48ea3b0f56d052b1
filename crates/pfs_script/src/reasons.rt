//! Why a line of a script is faulty.

/// Why a line is faulty. The reasons have numbers; where several apply to a line, the least is told.
#[derive(Clone, Copy, Debug, PartialEq, Eq)]
pub enum Reason {
    /// A byte of the line is neither a tab nor printable.
    BadByte = 1,
    /// The line has no line feed.
    OpenLine = 2,
    /// The line has none of the forms, or a name of it breaks its rule.
    BadForm = 3,
    /// The form isn't allowed there; or a repeat isn't done at the end, which is told of the line behind
    /// the last.
    OutOfPlace = 4,
    /// A number is over 2^64 - 1, or a repeat runs no time.
    BadNumber = 5,
    /// The session's number isn't 1 to 64; its block is a second one of the phase, or stands behind its
    /// `quit`; or names are missing at its first block or given at a later one.
    BadSession = 6,
    /// There is no limit, class or consumer of the name, or a class of it may not be registered.
    UnknownName = 7,
    /// A limit's value is outside its range, or the limit was given before.
    BadLimit = 8,
    /// A rule of opening and ending is broken, or six numbers stand on an `end` that ends no statement.
    BadNesting = 9,
    /// The lexer refuses the statement's text.
    BadStatement = 10,
    /// With this line there are more lines than a script may have; a repeat counts in full at its `done`.
    TooLong = 11,
    /// With this line a script has more phases, classes, tables or SELECTs, or more weight, than it may have; a
    /// repeat weighs in full at its `done`.
    TooMuch = 12,
}
