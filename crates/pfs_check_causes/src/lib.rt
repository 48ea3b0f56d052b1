//! What the lines of a report show of others, where a row was busy, held, late or FREE.
#![tactic(auto)]

mod causes;
pub mod laws;
mod own;
mod puts;
mod vacant;
mod words;

pub use causes::{CauseGivens, Causes};
pub use own::OwnChange;
pub use puts::{PhasedTop, RowTicket, TicketPut, TopPut};
pub use vacant::{FreeGivens, FreeRows};
pub use words::Words;

/// Memory ran out.
pub type NoMemory = std::alloc::AllocError;
