//! Small lemmas of truth values, numbers and options that the standard library has not, for all crates above.
#![tactic(auto)]
