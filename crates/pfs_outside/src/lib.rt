//! The outside of the engine: where its input comes from and where its text goes. A source and a sink
//! count their own failures, so a contract can tie the answer "failed" to a count that rose.
#![tactic(auto)]

mod memory;
mod reading;
mod short;
mod sink;
mod source;
mod standard;
mod writing;

pub use memory::{MemorySink, MemorySource};
pub use reading::{ReadStop, read_all};
pub use short::{ShortSink, ShortSource};
pub use sink::{Sink, Wrote};
pub use source::{Got, Source};
pub use standard::{StdSink, StdSource};
pub use std::alloc::AllocError as NoMemory;
pub use writing::{WriteStop, write_all};
