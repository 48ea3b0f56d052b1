//! A session between two phases.

ghost use Rattle.std.specs.Prelude.{◌≡◌, [], None};
ghost use Rattle.pfs_session.specs.Settlements.{owed_by_state};
ghost use Rattle.pfs_session.specs.SessionStates.{nothing_held};

use crate::outcomes::LastAction;
use crate::session::Session;
use pfs_levels::Log;
use std::marker::Model;

/// A session between two phases, which holds nothing.
#[derive(Drop)]
pub struct Paused {
    pub(crate) session: Session,
}

impl Model for Paused {
    ghost use Rattle.std.specs.Prelude.{◌≡◌};
    ghost use Rattle.pfs_session.specs.SessionStates.{Book, nothing_held};

    ghost Value = { Book };

    ghost view = { λ s. s.session };

    ghost invariant = { λ s. s.session.state.held ≡ nothing_held };
}

impl Paused {
    /// Hands out the journal of the phase, and leaves an empty one without room.
    pub fn take_log(&mut self) -> Log
        ensures journal { result ≡ self.old.journal }
        ensures rest { self.new ≡ record self.old { journal = record { entries = []; room = 0 } } }
    {
        let empty = Log::new(self.session.alloc);
        std::mem::replace(&mut self.session.log, empty)
    }

    /// The session's last action of the phase, where it had one.
    pub fn last_action(&self) -> Option<LastAction>
        ensures { result ≡ self.now.state.last }
    {
        self.session.last
    }

    /// Goes on with the session in another phase, in which it has had no action yet.
    pub fn resume(self) -> Session
        ensures state { result ≡ record self { state = record self.state { last = None } } }
        ensures held { result.state.held ≡ nothing_held }
        ensures owed { owed_by_state result.state ≡ [] }
    {
        let mut session = self.session;
        session.last = None;
        session
    }
}
