//! When two runs of one script, whose sessions came in different orders, show the same.
#![tactic(auto)]

pub mod laws;
