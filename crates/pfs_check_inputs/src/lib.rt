//! Where the report begins in an input that has a script and behind it a report.
#![tactic(auto)]

mod inputs;

pub use inputs::report_start;
