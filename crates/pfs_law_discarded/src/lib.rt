//! What the global summaries of a run of a script show, and what TRUNCATEs of them discarded, is all that was counted.
#![tactic(auto)]

pub mod laws;
