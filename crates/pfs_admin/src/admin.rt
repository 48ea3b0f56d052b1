//! The administration's calls.

ghost use Rattle.std.specs.Prelude.{◌≡◌, ◌<◌, ◌≤◌, ◌+◌, ◌*◌, ◌^◌, ◌∷◌, [], ℕ, Some, None, IfOk, IfSome, length};
ghost use Rattle.pfs_levels.specs.Views.{Used, lent_as};
ghost use Rattle.pfs_exec.specs.NewRows.{table_of};
ghost use Rattle.pfs_containers.specs.ContainerState.{lost_in};
ghost use Rattle.pfs_admin.specs.Works.{Worked};
ghost use Rattle.pfs_admin.specs.AdministrationStates.{thread_flags, connected, has_quit, seat_at, seat_in, name_text};
ghost use Rattle.pfs_admin.specs.declared.changes.Change.TheVariants.{Connect, Quit, Truncate, Setup};
ghost use Rattle.pfs_admin.specs.declared.changes.SetupStatement.TheVariants as statements;
ghost use Rattle.pfs_admin.specs.SetupStatements.{has_changed, reply_of as spec_reply_of, reply_to, word_count, work_of_statement};
ghost use Rattle.pfs_admin.specs.Fold.{Follows};
ghost use Rattle.pfs_admin.specs.OpeningState.{opened};
ghost use Rattle.pfs_admin.specs.Truncations.{actors_behind, objects_behind, has_truncated, truncation_cost, work_of_truncation};
ghost use Rattle.pfs_admin.specs.ConnectionAsks.{work_of_connect, work_of_quit, connect_entry, placed_of};

use crate::NoMemory;
use crate::cells::CellsByKind;
use crate::changes::Reply;
use crate::charges::{flags_cost, moves_cost, signs_cost};
use crate::opening::{both_flags, cells_of, names_of, opening_flags, words_of};
use crate::setups::{flags_of, set_deleted, set_inserted, set_updated, table_of};
use crate::threads::{write_connect, write_quit};
use crate::truncations::write_truncation;
use pfs_classes::Setting;
use pfs_containers::{Containers, Lost, Seated};
use pfs_event::Entry;
use pfs_exec::{Delete, Insert, Update};
use pfs_levels::{Hold, Log, Word};
use pfs_matching::{Actors, Objects};
use pfs_names::NameId;
use pfs_rows::Truncation;
use pfs_setups::{RowNames, delete, insert, update};
use std::alloc::Global;
use std::marker::Model;

/// The places that a connect got, each from 0 on.
#[derive(Clone, Copy, Debug, PartialEq, Eq)]
pub struct Placed {
    pub thread: Option<u64>,
    pub account: Option<u64>,
    pub user: Option<u64>,
    pub host: Option<u64>,
}

/// The administration: who is connected where, the switch words as they stand, the rows of `setup_actors` and
/// `setup_objects`, and how many actions there were. Its caller changes it inside row 0 alone; `connect`, `quit`,
/// `truncate`, `update`, `insert`, `delete` and `note` are one action each.
#[derive(Drop)]
pub struct Admin {
    containers: Containers,
    words: Vec<Word>,
    actors: Actors,
    objects: Objects,
    names: RowNames,
    cells: Vec<u64>,
    kinds: CellsByKind,
    actions: u64,
}

impl Model for Admin {
    ghost use Rattle.pfs_admin.specs.AdministrationStates.{State, IsState};

    ghost Value = { State };

    ghost view = { λ s. record {
      kept = s.containers;
      words = s.words.items;
      actors = s.actors;
      objects = s.objects;
      names = s.names.names;
      classes = s.names.classes;
      tables = s.names.tables;
      cells = s.cells.items;
      kinds = s.kinds;
      actions = s.actions;
    } };

    ghost invariant = { λ s. IsState (record {
      kept = s.containers;
      words = s.words.items;
      actors = s.actors;
      objects = s.objects;
      names = s.names.names;
      classes = s.names.classes;
      tables = s.names.tables;
      cells = s.cells.items;
      kinds = s.kinds;
      actions = s.actions;
    }) };
}

impl Admin {
    /// Nobody connected, the words and the rows of the opening, and no action. All room is taken here.
    pub fn open(alloc: Global, setting: &Setting) -> Result<Admin, NoMemory>
        ensures { IfOk result (λ admin. admin ≡ opened setting.now) }
    {
        let objects = Objects::open(alloc)?;
        let flags = opening_flags(alloc, setting, &objects)?;
        Ok(Admin {
            containers: Containers::open(alloc, &setting.limits)?,
            words: words_of(alloc, flags.as_slice())?,
            actors: Actors::open(alloc)?,
            objects,
            names: names_of(alloc, setting)?,
            cells: cells_of(alloc, &setting.classes)?,
            kinds: CellsByKind::open(alloc, setting)?,
            actions: 0,
        })
    }

    /// Connects a session, an action: it gets the places that the containers give it. The log gets its `connect` with
    /// the action's number, then a `tag` for the info of each place, and a `set` where `setup_actors` changes the
    /// flags of its thread. Without a thread slot the `connect` stands alone, and nothing is written.
    pub fn connect<H: Hold>(
        &mut self,
        rows: &mut H,
        number: u64,
        user: NameId,
        host: NameId,
        log: &mut Log,
    ) -> Placed
        requires few { self.old.actions < 2 ^ 47 }
        requires user { user < length self.old.names }
        requires host { host < length self.old.names }
        requires alone { (r : ℕ) → 0 < r → (H.seen rows.old).hand r ≡ None }
        requires lent { (H.seen rows.old).words ≡ Some self.old.words }
        requires spare { 4 ≤ (H.seen rows.old).left }
        requires room { 6 ≤ log.old.room }
        ensures step { self.new ≡ connected self.old number user host }
        ensures stands { Follows number (Connect user host) self.old self.new }
        ensures placed { result ≡ placed_of (seat_at self.old number user host) }
        ensures slot { IfSome result.thread (λ n. n < 32) }
        ensures worked { Worked (work_of_connect self.old number user host) self.old.words
            (connect_entry (self.old.actions + 1) (seat_at self.old number user host) ∷ []) log.old log.new
            (H.seen rows.old).reached (H.seen rows.new).reached }
        ensures used { Used 4 0 6 (lent_as self.new.words (H.seen rows.old)) (H.seen rows.new) log.old log.new }
    {
        let flags = self.thread_flags(user, host);
        let seat = self.containers.connect(number, user, host);
        self.actions += 1;
        log.push(connect_entry(self.actions, &seat));
        write_connect(
            rows,
            &self.containers,
            self.words.as_mut_slice(),
            &seat,
            flags,
            log,
        );
        places_of(&seat)
    }

    /// Ends the connection in the lowest thread slot that a session has, an action: the numbers of its thread move
    /// up, its info is released, those of its other places are written, the 56 places of its thread's ring are
    /// released, and its thread's flags are cleared. The log gets each of these; the action's `act` entry is the
    /// caller's. Without a slot nothing is written.
    pub fn quit<H: Hold>(&mut self, rows: &mut H, number: u64, log: &mut Log)
        requires few { self.old.actions < 2 ^ 47 }
        requires alone { (r : ℕ) → 0 < r → (H.seen rows.old).hand r ≡ None }
        requires lent { (H.seen rows.old).words ≡ Some self.old.words }
        requires spare { 252 ≤ (H.seen rows.old).left }
        requires room { 253 ≤ log.old.room }
        ensures step { self.new ≡ has_quit self.old number }
        ensures stands { Follows number Quit self.old self.new }
        ensures worked { Worked (work_of_quit self.old number) self.old.words [] log.old log.new
            (H.seen rows.old).reached (H.seen rows.new).reached }
        ensures used { Used 252 0 253 (lent_as self.new.words (H.seen rows.old)) (H.seen rows.new) log.old log.new }
    {
        let seat = self.containers.quit(number);
        self.actions += 1;
        write_quit(
            rows,
            &self.containers,
            self.words.as_mut_slice(),
            self.cells.as_slice(),
            &seat,
            log,
        );
    }

    /// Truncates a table, an action: a summary's numbers move up, level by level, but those of digests go nowhere;
    /// those below `accounts`, `users` or `hosts` move up in all kinds, and what has no connection is freed; the places
    /// of an event table are released; a setup table loses its rows. The log gets each take and its gifts, the rows
    /// that are written or released, and the words that change; the action's `act` entry is the caller's. Which levels
    /// move, what is freed and the order are our own rules, after MySQL's.
    pub fn truncate<H: Hold>(&mut self, rows: &mut H, what: Truncation, log: &mut Log)
        requires few { self.old.actions < 2 ^ 47 }
        requires alone { (r : ℕ) → 0 < r → (H.seen rows.old).hand r ≡ None }
        requires lent { (H.seen rows.old).words ≡ Some self.old.words }
        requires spare { truncation_cost self.old what ≤ (H.seen rows.old).left }
        requires room { truncation_cost self.old what ≤ log.old.room }
        ensures step { self.new ≡ has_truncated self.old what }
        ensures stands { (session : ℕ) → Follows session (Truncate what) self.old self.new }
        ensures worked { Worked (work_of_truncation self.old what) self.old.words [] log.old log.new
            (H.seen rows.old).reached (H.seen rows.new).reached }
        ensures used { Used (truncation_cost self.old what) 0 (truncation_cost self.old what) (lent_as self.new.words
            (H.seen rows.old)) (H.seen rows.new) log.old log.new }
    {
        write_truncation(
            rows,
            &mut self.containers,
            self.words.as_mut_slice(),
            &self.kinds,
            what,
            log,
        );
        remove_rows(&mut self.actors, &mut self.objects, what);
        self.actions += 1;
    }

    /// The most publications and entries of a truncation as things stand: each move with what it may give, a row
    /// for each place of its tables where something stands or an event may, and for `setup_objects` the 64 words of
    /// the tables. With the
    /// 194 entries of what its session settles first, its action and its answer it stays within 20,000.
    pub fn truncation_cost(&self, what: Truncation) -> u64
        ensures cost { result ≡ truncation_cost self.now what }
        ensures few { result ≤ 19_202 }
    {
        let moves = moves_cost(&self.containers, &self.kinds, what);
        moves + signs_cost(&self.containers, what) + flags_cost(what)
    }

    /// Changes flags of a setup table's rows, an action: of each row that is met those that are named become as asked.
    /// The flags of `setup_actors` and `setup_objects` are the administration's own; the others' stand in switch words,
    /// and of those behind `setup_objects` all tables are decided again. The log gets a `set` for each word whose flags
    /// change, ascending; the action's `act` entry is the caller's. Answers how many rows are met, also where they stay
    /// as they were.
    pub fn update<H: Hold>(&mut self, rows: &mut H, what: &Update, log: &mut Log) -> Reply
        requires few { self.old.actions < 2 ^ 47 }
        requires lent { (H.seen rows.old).words ≡ Some self.old.words }
        requires room { word_count what.now.table ≤ log.old.room }
        ensures step { self.new ≡ has_changed self.old (statements.Update what.now) }
        ensures stands { (session : ℕ) → Follows session (Setup (statements.Update what.now)) self.old self.new }
        ensures reply { result ≡ reply_to self.old (statements.Update what.now) }
        ensures worked { Worked (work_of_statement self.old (statements.Update what.now)) self.old.words [] log.old
            log.new (H.seen rows.old).reached (H.seen rows.new).reached }
        ensures used { Used 0 0 (word_count what.now.table) (lent_as self.new.words (H.seen rows.old))
            (H.seen rows.new) log.old log.new }
    {
        let flags = flags_of(self.words.as_slice());
        let met = update(
            &self.names,
            &self.containers,
            &mut self.actors,
            &mut self.objects,
            &flags,
            what,
        );
        set_updated(
            rows,
            &self.names,
            &self.containers,
            &self.objects,
            self.words.as_mut_slice(),
            what,
            log,
        );
        self.actions += 1;
        Reply::Changed(met)
    }

    /// Adds a row to `setup_actors` or `setup_objects`, an action. Answers 1; or the number of an error, 1062 where a
    /// row with its key is there, else 1114 where there are 100 rows, and then changes nothing. The log gets what
    /// [update](Admin::update) gives it.
    pub fn insert<H: Hold>(&mut self, rows: &mut H, what: Insert, log: &mut Log) -> Reply
        requires few { self.old.actions < 2 ^ 47 }
        requires lent { (H.seen rows.old).words ≡ Some self.old.words }
        requires room { word_count (table_of what.row) ≤ log.old.room }
        ensures step { self.new ≡ has_changed self.old (statements.Insert what) }
        ensures stands { (session : ℕ) → Follows session (Setup (statements.Insert what)) self.old self.new }
        ensures reply { result ≡ reply_to self.old (statements.Insert what) }
        ensures worked { Worked (work_of_statement self.old (statements.Insert what)) self.old.words [] log.old
            log.new (H.seen rows.old).reached (H.seen rows.new).reached }
        ensures used { Used 0 0 (word_count (table_of what.row)) (lent_as self.new.words (H.seen rows.old))
            (H.seen rows.new) log.old log.new }
    {
        let table = table_of(&what.row);
        let answer = insert(&mut self.actors, &mut self.objects, what);
        set_inserted(
            rows,
            &self.names,
            &self.objects,
            self.words.as_mut_slice(),
            table,
            &answer,
            log,
        );
        self.actions += 1;
        reply_of(answer)
    }

    /// Removes the rows of `setup_actors` or `setup_objects` that are met, an action, and answers how many there were.
    /// The log gets what [update](Admin::update) gives it.
    pub fn delete<H: Hold>(&mut self, rows: &mut H, what: &Delete, log: &mut Log) -> Reply
        requires few { self.old.actions < 2 ^ 47 }
        requires lent { (H.seen rows.old).words ≡ Some self.old.words }
        requires room { word_count what.now.table ≤ log.old.room }
        ensures step { self.new ≡ has_changed self.old (statements.Delete what.now) }
        ensures stands { (session : ℕ) → Follows session (Setup (statements.Delete what.now)) self.old self.new }
        ensures reply { result ≡ reply_to self.old (statements.Delete what.now) }
        ensures worked { Worked (work_of_statement self.old (statements.Delete what.now)) self.old.words [] log.old
            log.new (H.seen rows.old).reached (H.seen rows.new).reached }
        ensures used { Used 0 0 (word_count what.now.table) (lent_as self.new.words (H.seen rows.old))
            (H.seen rows.new) log.old log.new }
    {
        let met = delete(&mut self.actors, &mut self.objects, what);
        set_deleted(
            rows,
            &self.names,
            &self.objects,
            self.words.as_mut_slice(),
            what.table,
            log,
        );
        self.actions += 1;
        Reply::Changed(met)
    }

    /// How many actions there were.
    pub fn actions(&self) -> u64
        ensures { result ≡ self.now.actions }
    {
        self.actions
    }

    /// How many connects looked for a thread slot, and for a place for their account, their user and their host, and
    /// found none.
    pub fn lost(&self) -> Lost
        ensures { result ≡ lost_in self.now.kept.now }
    {
        self.containers.lost()
    }

    /// An action that changes nothing: the rows of `setup_actors` or `setup_objects` were read.
    #[tactic(auto, unfolding(crate::specs::WordChanges::words_changed))]
    pub fn note(&mut self)
        requires { self.old.actions < 2 ^ 47 }
        ensures step { self.new ≡ has_changed self.old statements.Show }
        ensures stands { (session : ℕ) → Follows session (Setup statements.Show) self.old self.new }
    {
        // It writes nothing: the entry is its caller's.
        self.actions += 1;
    }

    /// The rows of `setup_actors`.
    pub fn actors(&self) -> &Actors
        ensures { result.now ≡ self.now.actors }
    {
        &self.actors
    }

    /// The rows of `setup_objects`.
    pub fn objects(&self) -> &Objects
        ensures { result.now ≡ self.now.objects }
    {
        &self.objects
    }

    // The flags of a new session's thread.
    fn thread_flags(&self, user: NameId, host: NameId) -> u16
        requires user { user < length self.now.names }
        requires host { host < length self.now.names }
        ensures { result ≡ thread_flags self.now user host }
    {
        let names = self.names.names();
        let user = names[user.0 as usize].as_bytes();
        let host = names[host.0 as usize].as_bytes();
        let (enabled, history) = self.actors.decide(user, host);
        both_flags(enabled, history)
    }
}

fn reply_of(answer: Result<u64, u16>) -> Reply
    ensures { result ≡ spec_reply_of answer }
{
    match answer {
        Ok(count) => Reply::Changed(count),
        Err(error) => Reply::Error(error),
    }
}

// Removes the rows of a setup table that is truncated.
fn remove_rows(actors: &mut Actors, objects: &mut Objects, what: Truncation)
    ensures actors { actors.new ≡ actors_behind what actors.old }
    ensures objects { objects.new ≡ objects_behind what objects.old }
{
    match what {
        Truncation::SetupActors => actors.truncate(),
        Truncation::SetupObjects => objects.truncate(),
        Truncation::Summary(_, _)
        | Truncation::DigestSummary
        | Truncation::Events(_, _)
        | Truncation::Accounts
        | Truncation::Users
        | Truncation::Hosts => {}
    }
}

// The entry of a connect.
fn connect_entry(action: u64, seat: &Option<Seated>) -> Entry
    ensures { result ≡ connect_entry action seat.now }
{
    let places = places_of(seat);
    Entry::Connect {
        action,
        thread: places.thread,
        account: places.account,
        user: places.user,
        host: places.host,
    }
}

fn places_of(seat: &Option<Seated>) -> Placed
    ensures { result ≡ placed_of seat.now }
{
    match seat {
        Some(seat) => Placed {
            thread: Some(seat.slot),
            account: seat.connection.account,
            user: seat.connection.user,
            host: seat.connection.host,
        },
        None => Placed {
            thread: None,
            account: None,
            user: None,
            host: None,
        },
    }
}
