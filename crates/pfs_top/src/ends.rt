//! How a call of `pfs` ended.

use crate::statuses::Status;
use pfs_board_store::Seats;

/// How a call ended, and the store that it ran on. That is there at Done of `run` alone: the seats that all sessions'
/// seats were split off and came back to, which know everything that was done there.
#[derive(Drop)]
pub struct RunEnd {
    pub status: Status,
    pub store: Option<Seats>,
}
