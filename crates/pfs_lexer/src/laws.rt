//! What follows from the definitions for all texts.
#![tactic(auto)]

ghost use Rattle.pfs_lexer.specs.Accounts.{OneReading};

/// A text has one reading: whatever accounts for each of its bytes is what the lexer gives.
pub fn one_reading()
    ensures { OneReading }
{}
