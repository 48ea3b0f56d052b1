//! What a run of a script is: when the journals and tables of a report are those of a run. The definitions stand in
//! `specs/`.
#![tactic(auto)]

pub mod laws;
