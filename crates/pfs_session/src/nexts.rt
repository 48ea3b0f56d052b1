//! The places where a session's next events go in its histories.

ghost use Rattle.std.specs.Prelude.{◌≡◌, ◌<◌, ◌+◌, ◌%◌};
ghost use Rattle.pfs_session.specs.EventPuts.{AreNexts, moved, moved_by};
ghost use Rattle.pfs_session.specs.SessionStates.{next_of};

use pfs_event::EventKind;
use pfs_rings::Put;
use pfs_rows::HISTORY_PLACES;

/// For each kind the place of history, from 0 to 9, to which its next event goes.
#[derive(Clone, Copy, Debug, PartialEq, Eq)]
pub struct Nexts {
    pub waits: u64,
    pub stages: u64,
    pub statements: u64,
    pub transactions: u64,
}

impl Nexts {
    /// Nothing was put yet.
    pub(crate) const FIRST: Nexts = Nexts {
        waits: 0,
        stages: 0,
        statements: 0,
        transactions: 0,
    };

    /// The next place of a kind.
    pub(crate) fn of(&self, kind: EventKind) -> u64
        requires { AreNexts self.now }
        ensures next { result ≡ next_of kind self.now }
        ensures few { result < 10 }
    {
        match kind {
            EventKind::Wait => self.waits,
            EventKind::Stage => self.stages,
            EventKind::Statement => self.statements,
            EventKind::Transaction => self.transactions,
        }
    }

    /// Behind a put: only an event that was written takes a place.
    pub(crate) fn moved_by(self, kind: EventKind, put: &Option<Put>) -> Nexts
        requires { AreNexts self }
        ensures moved { result ≡ moved_by kind put.now self }
        ensures few { AreNexts result }
    {
        match put {
            Some(Put::Done { .. }) => self.moved(kind),
            Some(Put::Busy { .. } | Put::Late { .. }) | None => self,
        }
    }

    // Each place once, and then from the first one on.
    fn moved(self, kind: EventKind) -> Nexts
        requires { AreNexts self }
        ensures moved { result ≡ moved kind self }
        ensures few { AreNexts result }
    {
        let mut nexts = self;
        match kind {
            EventKind::Wait => nexts.waits = (self.waits + 1) % HISTORY_PLACES,
            EventKind::Stage => nexts.stages = (self.stages + 1) % HISTORY_PLACES,
            EventKind::Statement => nexts.statements = (self.statements + 1) % HISTORY_PLACES,
            EventKind::Transaction => {
                nexts.transactions = (self.transactions + 1) % HISTORY_PLACES;
            }
        }
        nexts
    }
}
