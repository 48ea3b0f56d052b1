//! What stands before each line of a session over a board.

use std::sync::Wait;

/// What sessions pass, line by line. It may let one wait; it gives nothing back, and has no part in what is recorded.
pub trait Gate: Sync {
    /// Is called before each line of a session: with the session's number, and with the line's among those of the
    /// session's block in this phase, counted from 1. The block's `session` line is the first, and each line of a
    /// repeat counts as often as it is played.
    fn pass<R: Wait>(&self, rt: &R, session: u64, line: u64);
}

/// A gate that lets each line pass at once.
#[derive(Drop)]
pub struct OpenGate;

impl Gate for OpenGate {
    fn pass<R: Wait>(&self, rt: &R, session: u64, line: u64) {
        let _ = rt;
        let _ = session;
        let _ = line;
    }
}
