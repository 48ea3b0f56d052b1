//! Conservation, said of a run: which rows its events are added to, who is connected, what a truncation frees.
#![tactic(auto)]

pub mod conservation;
pub mod info_rows;
pub mod truncations;
