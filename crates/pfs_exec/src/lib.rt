//! The plan of a command, and the answer of a query over rows: which of them, in which order, and what of each.
#![tactic(auto)]

mod building;
mod changes;
mod checking;
pub mod laws;
mod lists;
mod planning;
mod query;
mod requests;
mod selecting;
mod sorting;
pub mod texts;
mod values;

pub use changes::{Change, Delete, Insert, NewRow, Update};
pub use lists::TestList;
pub use planning::plan;
pub use query::{NumberList, Order, OrderList, Plan, Select};
pub use requests::{Request, request_of};
pub use selecting::select;

/// Memory ran out.
pub type NoMemory = std::alloc::AllocError;
