//! What a session's entries so far tell of it, for whoever visits the next one.

ghost use Rattle.std.specs.Prelude.{◌≡◌, OnOk};
ghost use Rattle.pfs_model.specs.Contexts.{Context, fresh, turned};

use crate::NoMemory;
use pfs_check_trail::{Trail, subject_in};
use pfs_check_walk::Track;
use pfs_event::Entry;
use pfs_model::{Line, Opened};
use std::alloc::Global;
use std::marker::Model;

/// A session's track, kept as a trail.
#[derive(Drop)]
pub(crate) struct SessionTrack {
    trail: Trail,
}

impl Model for SessionTrack {
    ghost use Rattle.pfs_model.specs.Contexts.{Context};

    ghost Value = { Context };

    ghost view = { λ track. track.trail };
}

impl SessionTrack {
    /// Of a session that has done nothing. It takes no memory.
    pub(crate) fn new(alloc: Global) -> SessionTrack
        ensures { result ≡ fresh }
    {
        SessionTrack {
            trail: Trail::new(alloc),
        }
    }

    /// A new line: what the line before did has ended.
    pub(crate) fn turn(&mut self)
        ensures { self.new ≡ turned self.old }
    {
        self.trail.turn();
    }
}

impl Track for SessionTrack {
    ghost use Rattle.pfs_check_trail.specs.Trails.{IsTrailOf};

    ghost tells = { λ track context. IsTrailOf context track };

    fn drawn(&self) -> u64 {
        self.trail.drawn()
    }

    fn slot(&self) -> Option<u64> {
        self.trail.slot()
    }

    fn done(&self) -> u64 {
        self.trail.done()
    }

    fn action(&self) -> u64 {
        self.trail.action()
    }

    fn innermost(&self) -> Option<Opened> {
        self.trail.opened().innermost()
    }

    fn statements(&self) -> u64 {
        self.trail.opened().statements()
    }

    fn waits(&self) -> u64 {
        self.trail.opened().waits()
    }

    fn note(&mut self, line: &Line, entry: &Entry) -> Result<(), NoMemory> {
        self.trail.note(subject_in(line), entry)
    }
}
