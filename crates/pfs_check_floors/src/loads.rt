//! The switch words that lines name.

ghost use Rattle.std.specs.Prelude.{◌≡◌, ◌+◌, ◌∷◌, ◌++◌, [], List, Some, OnOk};
ghost use Rattle.pfs_model.specs.declared.lines.Subject.{Subject};
ghost use Rattle.pfs_model.specs.Chains.{change_at, word_change};
ghost use Rattle.pfs_model.specs.Contexts.{Context, subject_of};
ghost use Rattle.pfs_model.specs.EntryPlaces.{Placed};
ghost use Rattle.pfs_model.specs.Floors.{LoadsKeep, loads_in};
ghost use Rattle.pfs_model.specs.SetupFlags.{class_of, loads_at, loads_of, table_of, word_named};
ghost use Rattle.pfs_check_floors.specs.KnownFloors.{AreFloorsOf, AreRaised, IsSeatOf, Tells};
ghost use Rattle.pfs_check_floors.specs.WordLoads.{load_list, loads_list};

use crate::NoMemory;
use crate::floors::{Floors, Seat, SessionRow, both, raise};
use pfs_event::Entry;
use pfs_model::{Line, Subject};
use std::collections::BTreeMap;

/// A switch word at a version.
#[derive(Clone, Copy, Debug, PartialEq, Eq)]
pub struct Load {
    /// The number of the word. A printed slot may be any number, so it may be above that of any word.
    pub word: u128,
    pub version: u64,
}

/// The words that an entry says were loaded; or the one that it names or sets, in the first place.
#[derive(Clone, Copy, Debug, PartialEq, Eq)]
pub struct Loads {
    pub consumers: Option<Load>,
    pub thread: Option<Load>,
    pub class: Option<Load>,
    pub table: Option<Load>,
}

// This word, where a version of it is named.
fn load_of(word: u64, version: Option<u64>) -> Option<Load>
    ensures { load_list result ≡ word_named (λ number. number) (Some word) version }
{
    match version {
        Some(version) => Some(Load {
            word: word as u128,
            version,
        }),
        None => None,
    }
}

// The word that is so many behind the first of its kind, where both are named.
fn load_behind(first: u64, number: Option<u64>, version: Option<u64>) -> Option<Load>
    ensures { load_list result ≡ word_named (λ number. first + number) number version }
{
    match number {
        Some(number) => match version {
            Some(version) => Some(Load {
                word: first as u128 + number as u128,
                version,
            }),
            None => None,
        },
        None => None,
    }
}

fn class_in(subject: Option<Subject>) -> Option<u64>
    ensures { result ≡ class_of subject }
{
    match subject {
        Some(subject) => subject.class,
        None => None,
    }
}

fn table_in(subject: Option<Subject>) -> Option<u64>
    ensures { result ≡ table_of subject }
{
    match subject {
        Some(subject) => subject.table,
        None => None,
    }
}

// What a line starts.
fn subject_in(line: &Line) -> Option<Subject>
    ensures { result ≡ subject_of line.now }
{
    match line {
        Line::Start { subject } => Some(*subject),
        Line::Stage { subject } => Some(*subject),
        _ => None,
    }
}

fn one_load(word: u64, version: u64) -> Loads
    ensures { loads_list result ≡ change_at word version ∷ [] }
{
    Loads {
        consumers: load_of(word, Some(version)),
        thread: None,
        class: None,
        table: None,
    }
}

// Of a line that starts this, in a session with this slot.
fn loads_at(subject: Option<Subject>, slot: Option<u64>, entry: &Entry) -> Loads
    ensures { (context : Context) → context.slot ≡ slot
        → loads_list result ≡ loads_at subject context entry.now ++ word_change entry.now }
{
    match *entry {
        Entry::Start {
            consumers,
            thread,
            class,
            table,
            ..
        } => Loads {
            consumers: load_of(0, consumers),
            thread: load_behind(1, slot, thread),
            class: load_behind(33, class_in(subject), class),
            table: load_behind(96, table_in(subject), table),
        },
        Entry::End {
            consumers,
            thread,
            ..
        } => Loads {
            consumers: load_of(0, consumers),
            thread: load_behind(1, slot, thread),
            class: None,
            table: None,
        },
        Entry::Saw { word, version } => one_load(word, version),
        Entry::Set { word, version, .. } => one_load(word, version),
        _ => Loads {
            consumers: None,
            thread: None,
            class: None,
            table: None,
        },
    }
}

/// The switch words that an entry of a line names, where its session has this slot.
pub fn loads_in(line: &Line, slot: Option<u64>, entry: &Entry) -> Loads
    ensures { (place : Placed) → place.line ≡ line.now → place.context.slot ≡ slot → place.entry ≡ entry.now
        → loads_list result ≡ loads_of place ++ word_change place.entry }
{
    let subject = subject_in(line);
    loads_at(subject, slot, entry)
}

fn raise_load(
    known: &mut BTreeMap<SessionRow, u64>,
    session: u64,
    load: Option<Load>,
) -> Result<(), NoMemory>
    ensures { OnOk result (AreRaised known.old known.new session (load_list load)) }
{
    match load {
        Some(load) => raise(known, session, load.word, load.version),
        None => Ok(()),
    }
}

/// A session has seen these.
pub(crate) fn note_loads(
    known: &mut BTreeMap<SessionRow, u64>,
    session: u64,
    loads: &Loads,
) -> Result<(), NoMemory>
    ensures { OnOk result (AreRaised known.old known.new session (loads_list loads.now)) }
{
    let Loads {
        consumers,
        thread,
        class,
        table,
    } = *loads;
    raise_load(known, session, consumers)?;
    raise_load(known, session, thread)?;
    raise_load(known, session, class)?;
    raise_load(known, session, table)
}

impl Floors {
    fn load_well(&self, seat: Seat, load: Option<Load>) -> bool
        ensures { (all : List Placed) → (earlier : List Placed) → (place : Placed)
            → AreFloorsOf word_change loads_in all earlier self.now → IsSeatOf seat place
            → Tells (LoadsKeep all earlier place (load_list load)) result }
    {
        match load {
            Some(load) => self.is_seen_well(seat, load.word, load.version),
            None => true,
        }
    }

    /// Whether an entry names its words at versions that its session may name there.
    pub fn loads_well(&self, seat: Seat, loads: &Loads) -> bool
        ensures { (all : List Placed) → (earlier : List Placed) → (place : Placed)
            → AreFloorsOf word_change loads_in all earlier self.now → IsSeatOf seat place
            → Tells (LoadsKeep all earlier place (loads_list loads.now)) result }
    {
        let Loads {
            consumers,
            thread,
            class,
            table,
        } = *loads;
        let one = self.load_well(seat, consumers);
        let two = self.load_well(seat, thread);
        let three = self.load_well(seat, class);
        let four = self.load_well(seat, table);
        let last = both(three, four);
        let rest = both(two, last);
        both(one, rest)
    }
}
