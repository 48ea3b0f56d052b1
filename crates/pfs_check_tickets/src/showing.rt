//! What earlier puts of the long histories showed: how many puts a place has in the phase, which tickets, and the
//! greatest of a session.

ghost use Rattle.std.specs.Prelude.{ℕ, ◌≡◌, ◌+◌, ◌==◌, ◌∷◌, [], List, cond, true, Some, IfOk, OnOk};
ghost use Rattle.std.specs.BTreeMap.{get};
ghost use Rattle.std.specs.BTreeSet.{contains};
ghost use Rattle.pfs_model.specs.EntryPlaces.{Placed};
ghost use Rattle.pfs_check_tickets.specs.PrintedPuts.{put_of};
ghost use Rattle.pfs_check_tickets.specs.ShownPuts.{AreShown, greater_of, is_above, is_same_row, is_same_session, is_same_shown, row_count, session_cmp, shown_cmp};

use crate::NoMemory;
use crate::puts::{Put, kind_of};
use std::alloc::{AllocError, Global};
use std::collections::{BTreeMap, BTreeSet};

/// A row in a phase.
#[derive(Clone, Copy, Debug, PartialEq, Eq, PartialOrd, Ord)]
pub struct PhaseRow {
    pub phase: u64,
    pub row: u64,
}

/// A ticket of a kind in a phase.
#[derive(Clone, Copy, Debug, PartialEq, Eq, PartialOrd, Ord)]
pub struct PhaseTicket {
    pub phase: u64,
    pub kind: u64,
    pub ticket: u64,
}

/// A session and a kind in a phase.
#[derive(Clone, Copy, Debug, PartialEq, Eq, PartialOrd, Ord)]
pub struct SessionKind {
    pub phase: u64,
    pub session: u64,
    pub kind: u64,
}

/// What was shown so far.
#[derive(Debug, Drop)]
pub struct ShownPuts {
    /// How many puts each row has in each phase.
    pub rows: BTreeMap<PhaseRow, u64>,
    /// The tickets.
    pub tickets: BTreeSet<PhaseTicket>,
    /// The greatest ticket of each session.
    pub sessions: BTreeMap<SessionKind, u64>,
}

fn greater_of(ticket: u64, other: Option<u64>) -> u64
    ensures { result ≡ greater_of ticket other }
{
    match other {
        Some(other) => ticket.max(other),
        None => ticket,
    }
}

/// Whether a ticket is above the greatest of others, if there are any.
pub(crate) fn is_above(greatest: Option<u64>, ticket: u64) -> bool
    ensures { result ≡ is_above greatest ticket }
{
    match greatest {
        Some(greatest) => greatest < ticket,
        None => true,
    }
}

fn add_row(rows: &mut BTreeMap<PhaseRow, u64>, key: PhaseRow) -> Result<(), NoMemory>
    ensures { OnOk result ((other : PhaseRow) → row_count rows.new other
        ≡ cond (is_same_row key other) (row_count rows.old other + 1) (row_count rows.old other)) }
{
    let count = rows.get(&key).copied().unwrap_or(0);
    match count.checked_add(1) {
        Some(more) => {
            rows.insert(key, more)?;
            Ok(())
        }
        None => Err(AllocError),
    }
}

fn add_ticket(tickets: &mut BTreeSet<PhaseTicket>, key: PhaseTicket) -> Result<(), NoMemory>
    ensures { OnOk result ((other : PhaseTicket) → contains shown_cmp tickets.new other
        ≡ cond (is_same_shown key other) true (contains shown_cmp tickets.old other)) }
{
    tickets.insert(key)?;
    Ok(())
}

fn raise_session(
    sessions: &mut BTreeMap<SessionKind, u64>,
    key: SessionKind,
    ticket: u64,
) -> Result<(), NoMemory>
    ensures { OnOk result ((other : SessionKind) → get session_cmp sessions.new other
        ≡ cond (is_same_session key other) (Some (greater_of ticket (get session_cmp sessions.old key)))
        (get session_cmp sessions.old other)) }
{
    let greatest = greater_of(ticket, sessions.get(&key).copied());
    sessions.insert(key, greatest)?;
    Ok(())
}

impl ShownPuts {
    /// Of no entries. It takes no memory.
    pub(crate) fn new(alloc: Global) -> ShownPuts
        ensures { AreShown [] result }
    {
        ShownPuts {
            rows: BTreeMap::new(alloc),
            tickets: BTreeSet::new(alloc),
            sessions: BTreeMap::new(alloc),
        }
    }

    /// How many puts a row has in a phase so far.
    pub(crate) fn of_row(&self, phase: u64, row: u64) -> u64
        ensures { result ≡ row_count self.now.rows (record { phase = phase; row = row }) }
    {
        self.rows
            .get(&PhaseRow { phase, row })
            .copied()
            .unwrap_or(0)
    }

    /// Whether a ticket of a kind was shown in a phase.
    pub(crate) fn has_ticket(&self, key: PhaseTicket) -> bool
        ensures { result ≡ contains shown_cmp self.now.tickets key }
    {
        self.tickets.contains(&key)
    }

    /// The greatest ticket of a kind that a session showed in a phase.
    pub(crate) fn of_session(&self, key: SessionKind) -> Option<u64>
        ensures { result ≡ get session_cmp self.now.sessions key }
    {
        self.sessions.get(&key).copied()
    }

    // A ticket is shown.
    fn show(&mut self, key: SessionKind, ticket: u64) -> Result<(), NoMemory>
        ensures rows { OnOk result (self.new.rows ≡ self.old.rows) }
        ensures tickets { OnOk result ((other : PhaseTicket) → contains shown_cmp self.new.tickets other
            ≡ cond (is_same_shown (record { phase = key.phase; kind = key.kind; ticket = ticket }) other) true
            (contains shown_cmp self.old.tickets other)) }
        ensures sessions { OnOk result ((other : SessionKind) → get session_cmp self.new.sessions other
            ≡ cond (is_same_session key other) (Some (greater_of ticket (get session_cmp self.old.sessions key)))
            (get session_cmp self.old.sessions other)) }
    {
        let shown = PhaseTicket {
            phase: key.phase,
            kind: key.kind,
            ticket,
        };
        add_ticket(&mut self.tickets, shown)?;
        raise_session(&mut self.sessions, key, ticket)?;
        Ok(())
    }

    /// One put more, in this phase and in the journal of this session. Err where memory runs out.
    pub(crate) fn note(&mut self, phase: u64, session: u64, put: Put) -> Result<(), NoMemory>
        ensures { OnOk result ((earlier : List Placed) → (place : Placed) → place.phase ≡ phase
            → place.session ≡ session → put_of place.line place.entry ≡ Some put → AreShown earlier self.old
            → AreShown (place ∷ earlier) self.new) }
    {
        let kind = kind_of(put.row);
        add_row(
            &mut self.rows,
            PhaseRow {
                phase,
                row: put.row,
            },
        )?;
        match put.ticket {
            Some(ticket) => self.show(
                SessionKind {
                    phase,
                    session,
                    kind,
                },
                ticket,
            ),
            None => Ok(()),
        }
    }
}
