//! What is kept of each action.

use crate::infos::Info;
use crate::shows::HeldCopies;
use pfs_admin::{Placed, Reply};
use pfs_containers::Lost;
use pfs_event::Log;

/// What is kept of an action.
#[derive(Clone, Copy, Debug, PartialEq, Eq)]
pub struct Order {
    /// Where all that it may ask for begins among the entries of all actions.
    pub start: usize,
    /// Where it ends there.
    pub end: usize,
    /// Where the info rows that it writes begin among those of all actions.
    pub first_info: usize,
    /// Where they end there.
    pub end_info: usize,
    /// Where a copy of the rows of the setup tables as they stood before it stands among the copies, if it reads them.
    pub held: usize,
    /// The places that a connect got; none of another action.
    pub placed: Placed,
    /// What it is answered; no rows where it has no answer.
    pub reply: Reply,
    /// What was lost of threads, accounts, users and hosts up to its end.
    pub lost: Lost,
}

/// What is kept of all actions.
#[derive(Drop)]
pub struct Orders {
    /// All that they may ask for, one action after another.
    pub entries: Log,
    /// The info rows that they write, one action after another, each action's in the order in which it writes them.
    pub infos: Vec<Info>,
    /// The rows of the setup tables before the actions that read them.
    pub held: HeldCopies,
    /// By their numbers, from 1 on.
    pub orders: Vec<Order>,
}
