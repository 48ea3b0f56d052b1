//! The change that an entry makes.

ghost use Rattle.std.specs.Prelude.{◌≡◌, ◌∷◌, Option, List, OnOk};
ghost use Rattle.pfs_check_amounts.specs.EventTerms.{GivesEvents};
ghost use Rattle.pfs_check_contents.specs.HeldEvents.{AreHeld, own_amount};
ghost use Rattle.pfs_check_notes.specs.SessionNotes.{AreNotesOf};
ghost use Rattle.pfs_model.specs.Contents.{Given};
ghost use Rattle.pfs_model.specs.EntryPlaces.{Placed};
ghost use Rattle.pfs_model.specs.declared.changes.Change.{Change};
ghost use Rattle.pfs_check_made.specs.MadeChanges.{IsAt, IsEndedAt, IsMadeTold, IsPutTold, changed_to, put_to};
ghost use Rattle.pfs_check_made.specs.TagWords.{GivesTags};

use crate::NoMemory;
use crate::tags::{TagAt, TagWords};
use pfs_check_amounts::EventTerms;
use pfs_check_contents::{Effect, HeldAmounts, RowChange};
use pfs_check_notes::{SessionNotes, writing_of};
use pfs_event::Entry;
use pfs_model::Opened;
use pfs_stat::Stat;

/// Where an entry stands: its session, the action of its line, how many numbers the session has drawn, and its innermost
/// open event.
#[derive(Clone, Copy, Debug, PartialEq, Eq)]
pub struct Here {
    pub session: u64,
    pub action: u64,
    pub drawn: u64,
    pub innermost: Option<Opened>,
}

/// What an entry makes of a row.
#[derive(Clone, Copy, Debug, PartialEq, Eq)]
pub enum Made {
    /// It changes none.
    Nothing,
    Changed(RowChange),
    /// What it makes can't be known.
    Unknown,
}

// What an event adds that has just ended, if one has.
fn own_amount(terms: &EventTerms, session: u64, ended: Option<Opened>) -> Option<Stat>
    ensures { (given : Given) → GivesEvents given terms.now → result ≡ own_amount given session ended }
{
    match ended {
        Some(event) => Some(terms.amount(session, &event)),
        None => None,
    }
}

/// One entry more of what sessions hold for rows, where this event has just ended, if one has. Err where memory runs
/// out.
pub fn note_held(
    held: &mut HeldAmounts,
    terms: &EventTerms,
    session: u64,
    ended: Option<Opened>,
    entry: &Entry,
) -> Result<(), NoMemory>
    ensures { (given : Given) → (earlier : List Placed) → (place : Placed) → GivesEvents given terms.now
        → place.session ≡ session → place.entry ≡ entry.now → IsEndedAt place ended
        → AreHeld given earlier held.old → OnOk result (AreHeld given (place ∷ earlier) held.new) }
{
    match entry {
        Entry::Held { .. } | Entry::Add { .. } => {
            let own = own_amount(terms, session, ended);
            held.note(session, entry, own)
        }
        _ => Ok(()),
    }
}

// The words that a put writes, in the long history with its ticket.
fn put_words(
    terms: &EventTerms,
    notes: &SessionNotes,
    here: Here,
    ticket: Option<u64>,
) -> Option<[u64; 16]>
    ensures { (given : Given) → (place : Placed) → (taken : Option Change) → GivesEvents given terms.now
        → AreNotesOf place.context taken notes.now → IsAt place here → IsPutTold given place ticket result }
{
    match writing_of(notes, here.innermost, here.drawn) {
        Some(writing) => terms.words(here.session, ticket, &writing),
        None => None,
    }
}

fn changed(row: u64, version: u64, action: u64, effect: Effect) -> Made
    ensures { result ≡ changed_to row version action effect }
{
    Made::Changed(RowChange {
        row,
        version,
        action,
        effect,
    })
}

fn put_made(row: u64, version: u64, action: u64, words: Option<[u64; 16]>) -> Made
    ensures { result ≡ put_to row version action words }
{
    match words {
        Some(words) => changed(row, version, action, Effect::Put(words)),
        None => Made::Unknown,
    }
}

/// What an entry makes of a row, where its session holds this for rows and has left these notes. A gift's source must be
/// what its action took last.
pub fn made_of(
    terms: &EventTerms,
    tags: &TagWords,
    held: &HeldAmounts,
    notes: &SessionNotes,
    here: Here,
    entry: &Entry,
) -> Made
    ensures { (given : Given) → (earlier : List Placed) → (place : Placed) → GivesEvents given terms.now
        → GivesTags given tags.now → AreHeld given earlier held.now → IsAt place here → place.entry ≡ entry.now
        → IsMadeTold given earlier place notes.now result }
{
    pfs_check_contents::laws::added();
    match *entry {
        Entry::Add { row, version } => {
            let own = own_amount(terms, here.session, notes.ended);
            let amount = held.brought(here.session, row, own);
            changed(row, version, 0, Effect::Add(amount))
        }
        Entry::Take { row, version } => changed(row, version, here.action, Effect::Take),
        Entry::Give {
            row,
            version,
            source: from,
        } => match notes.source(here.action) {
            Some(source) if source.row == from => changed(
                row,
                version,
                here.action,
                Effect::Give {
                    from,
                    version: source.version,
                },
            ),
            _ => Made::Unknown,
        },
        Entry::Tag { row, version } => {
            let action = here.action;
            put_made(row, version, action, tags.words(TagAt { action, row }))
        }
        Entry::Ring { row, version } => {
            put_made(row, version, 0, put_words(terms, notes, here, None))
        }
        Entry::Long {
            row,
            version,
            ticket,
        } => put_made(row, version, 0, put_words(terms, notes, here, Some(ticket))),
        _ => Made::Nothing,
    }
}
