//! A session: its calls, each of which is one or two steps.

ghost use Rattle.std.specs.Prelude.{◌≡◌, ◌<◌, ◌≤◌, ◌+◌, ◌%◌, ◌^◌, ◌∷◌, ◌&&◌, [], ℕ, length, Some, None, IfOk, IfSome, OnOk, OnErr, IsSome, false, true};
ghost use Rattle.pfs_levels.specs.Views.{Affords, Used, lent_as};
ghost use Rattle.pfs_admin.specs.ConnectionAsks.{placed_of};
ghost use Rattle.pfs_admin.specs.AdministrationStates.{connected, has_quit, seat_at};
ghost use Rattle.pfs_admin.specs.Truncations.{has_truncated, truncation_cost};
ghost use Rattle.pfs_event.specs.Nests.{MayStart};
ghost use Rattle.pfs_event.specs.Verdicts.{is_let_through};
ghost use Rattle.pfs_session.specs.EventAnswers.{SaysStart, SaysEnd, SaysStage, SaysStageEnd, EndsAs, is_in_stage};
ghost use Rattle.pfs_rings.specs.RingPlaces.{depths};
ghost use Rattle.pfs_session.specs.Ends.{Finished, HasCounted, HasDigested, HasPuts, outer_events, without_innermost};
ghost use Rattle.pfs_session.specs.CallCosts.{MayWork};
ghost use Rattle.pfs_session.specs.CallEnds.{HasStarted, HasStaged};
ghost use Rattle.pfs_session.specs.EventPuts.{HasPutIn, depth_of, StandInRings};
ghost use Rattle.pfs_session.specs.Settlements.{owed_by_state, settle_cost};
ghost use Rattle.pfs_session.specs.Starts.{started, if_through};
ghost use Rattle.pfs_session.specs.SessionStates.{fresh, around, one_if, no_place, nothing_held, without_stage};
ghost use Rattle.pfs_session.specs.Turns.{Played, Does, StartsEvent, EndsEvent, Spends, SettlesHeld, Connects, Quits, Truncates, StageMayStart, stage_steps, stage_ends};

use crate::NoMemory;
use crate::adding::bring;
use crate::events::{Numbers, amount_of, cell_number, digest_number, is_statement, is_wait};
use crate::nexts::Nexts;
use crate::opening::opened;
use crate::outcomes::{Counting, End, Ended, LastAction, Puts, Started};
use crate::paused::Paused;
use crate::paying::{clear, settle_all};
use crate::putting::{ended_event, goes_on, history_consumer, is_placed, long_consumer, offer};
use crate::setup::{if_through, is_digested, is_timed, judge, load, load_word, start_entry};
use pfs_admin::{Admin, Placed, Reply, Truncation};
use pfs_event::{Entry, EventKind, Nest, Open, Verdict};
use pfs_levels::{Added, Hold, Label, Log, Rows};
use pfs_model::Subject;
use pfs_names::NameId;
use pfs_rings::{Put, Ring};
use pfs_stat::Stat;
use std::alloc::Global;
use std::marker::Model;

/// A session with its journal of the phase. It takes memory as it is opened and by `reserve` alone.
#[derive(Drop)]
pub struct Session {
    pub(crate) alloc: Global,
    number: u64,
    stack: u64,
    place: Placed,
    clock: u64,
    drawn: u64,
    nest: Nest,
    statements: u64,
    waits: u64,
    held: Vec<Option<Stat>>,
    pub(crate) actions: u64,
    pub(crate) last: Option<LastAction>,
    nexts: Nexts,
    pub(crate) log: Log,
}

impl Model for Session {
    ghost use Rattle.pfs_session.specs.SessionInvariant.{IsKept};
    ghost use Rattle.pfs_session.specs.SessionStates.{Book};

    ghost Value = { Book };

    ghost view = { λ s. record {
      state = record {
        number = s.number;
        stack = s.stack;
        place = s.place;
        clock = s.clock;
        drawn = s.drawn;
        opened = s.nest;
        held = s.held.items;
        actions = s.actions;
        last = s.last;
        nexts = s.nexts;
      };
      journal = s.log;
    } };

    ghost invariant = { λ s. IsKept (record {
      number = s.number;
      stack = s.stack;
      place = s.place;
      clock = s.clock;
      drawn = s.drawn;
      opened = s.nest;
      held = s.held.items;
      actions = s.actions;
      last = s.last;
      nexts = s.nexts;
    }) s.statements s.waits };
}

// 1 for an event that is let through and of the kind asked for.
fn one_if(through: bool, fits: bool) -> u64
    ensures { result ≡ one_if (through && fits) }
{
    if through && fits { 1 } else { 0 }
}

impl Session {
    /// The session of this number, connected nowhere, with its clock at 0, nothing open and nothing held, and with
    /// room for `depth` open events; at most `stack` statements that are let through may be open.
    pub fn open(alloc: Global, number: u64, stack: u64, depth: u64) -> Result<Session, NoMemory>
        requires stack { stack ≤ 10 }
        ensures { IfOk result (λ s. s ≡ record {
          state = fresh number stack depth;
          journal = record {
            entries = [];
            room = 0;
          };
        }) }
    {
        let nest = Nest::with_depth(alloc, depth)?;
        let mut held = vec![in alloc; None; 193]?;
        clear(held.as_mut_slice());
        Ok(Session {
            alloc,
            number,
            stack,
            place: Placed {
                thread: None,
                account: None,
                user: None,
                host: None,
            },
            clock: 0,
            drawn: 0,
            nest,
            statements: 0,
            waits: 0,
            held,
            actions: 0,
            last: None,
            nexts: Nexts::FIRST,
            log: Log::new(alloc),
        })
    }

    /// Makes room for so many journal entries more. Out of memory the session is as before.
    pub fn reserve(&mut self, entries: u64) -> Result<(), NoMemory>
        ensures state { self.new.state ≡ self.old.state }
        ensures ok { OnOk result (self.new.journal ≡ record {
          entries = self.old.journal.entries;
          room = self.old.journal.room + entries;
        }) }
        ensures err { OnErr result (self.new ≡ self.old) }
    {
        self.log.reserve(entries)
    }

    /// The session's number.
    pub fn number(&self) -> u64
        ensures { result ≡ self.now.state.number }
    {
        self.number
    }

    /// The label of the session's next action.
    pub fn label(&self) -> Label
        requires { self.now.state.actions + 1 < 2 ^ 64 }
        ensures { result ≡ record { session = self.now.state.number; line = self.now.state.actions + 1 } }
    {
        Label {
            session: self.number,
            line: self.actions + 1,
        }
    }

    /// Lets so many picoseconds pass on the session's clock, which goes modulo 2^64.
    pub fn spend(&mut self, time: u64)
        ensures state { self.new.state ≡ record self.old.state { clock = (self.old.state.clock + time) % 2 ^ 64 } }
        ensures does { Does self.old.state (Spends time) [] [] self.new.state }
        ensures journal { self.new.journal ≡ self.old.journal }
    {
        self.clock = self.clock.wrapping_add(time);
    }

    /// Starts an event. Its start loads the consumers' word, the thread's, the class's and, of an event of a table,
    /// the table's, in this order; nothing of a session without a slot and of a lost class. What it loads decides
    /// whether and where the event counts, whether it is digested, and whether it is offered to its current place:
    /// there it is put then. The log gets the start and what became of the put.
    pub fn start<R: Rows>(&mut self, rows: &mut R, what: &Subject) -> Started
        requires may { MayStart self.old.state.opened what.now.kind }
        requires shallow { length self.old.state.opened.events < self.old.state.opened.depth }
        requires class { IfSome what.now.class (λ n. n < 63) }
        requires table { IfSome what.now.table (λ n. n < 64) }
        requires digest { IfSome what.now.digest (λ n. n < 64) }
        requires early { self.old.state.drawn + 1 < 2 ^ 64 }
        requires alone { (r : ℕ) → 0 < r → (R.seen rows.old).hand r ≡ None }
        requires affords { Affords 1 0 2 (R.seen rows.old) self.old.journal }
        ensures played { Played (StartsEvent what.now ∷ []) self.old self.new (R.seen rows.old).reached
            (R.seen rows.new).reached }
        ensures answer { SaysStart result self.old.journal.entries self.new.journal.entries }
        ensures opened { HasStarted what.now.kind self.old.state.opened self.new.state.opened }
        ensures drawn { self.new.state.drawn ≡ self.old.state.drawn + one_if (is_let_through result.verdict) }
        ensures rest { self.new.state ≡ record self.old.state {
          drawn = self.new.state.drawn;
          opened = self.new.state.opened;
        } }
        ensures used { Used 1 0 2 (R.seen rows.old) (R.seen rows.new) self.old.journal self.new.journal }
    {
        let seen = load(rows, self.place.thread, what);
        let verdict = judge(
            self.stack,
            self.place.thread,
            what,
            &seen,
            self.statements,
            self.waits,
        );
        let timed = is_timed(what, &seen);
        let digested = is_digested(what, verdict, &seen);
        let placed = is_placed(what, verdict, &seen);
        let depth = self.depth(what.kind);
        let event = opened(
            self.number,
            self.drawn,
            self.clock,
            &self.nest,
            what,
            verdict,
            timed,
            digested,
            placed,
        );
        self.log.push(start_entry(verdict, self.drawn + 1, &seen));
        let number = self.begin(event);
        let current = self.place(rows, &event, depth);
        Started {
            event: number,
            verdict,
            seen,
            current,
        }
    }

    // How many let-through events of a kind are open; of stages and transactions it is no matter.
    fn depth(&self, kind: EventKind) -> u64
        ensures { result ≡ depth_of kind self.now.state.opened.events }
    {
        match kind {
            EventKind::Wait => self.waits,
            EventKind::Statement => self.statements,
            EventKind::Stage | EventKind::Transaction => 0,
        }
    }

    // Puts an event that starts to its current place, where it is offered there.
    fn place<R: Rows>(&mut self, rows: &mut R, what: &Open, depth: u64) -> Option<Put>
        requires deep { what.now.placed ≡ true → depth < depths what.now.kind }
        requires alone { (r : ℕ) → 0 < r → (R.seen rows.old).hand r ≡ None }
        requires affords { Affords 1 0 1 (R.seen rows.old) self.old.journal }
        ensures put { HasPutIn self.old.state.place.thread what.now depth result self.old.journal self.new.journal
            (R.seen rows.old).reached (R.seen rows.new).reached }
        ensures state { self.new.state ≡ self.old.state }
        ensures used { Used 1 0 1 (R.seen rows.old) (R.seen rows.new) self.old.journal self.new.journal }
    {
        let Some(slot) = self.place.thread else {
            return None;
        };
        let ring = Ring::Current {
            thread: slot,
            kind: what.kind,
            depth,
        };
        offer(rows, what.placed, ring, &what.event, &mut self.log)
    }

    // Opens an event. Answers the EVENT_ID of one that is let through.
    fn begin(&mut self, what: Open) -> Option<u64>
        requires may { MayStart self.old.state.opened what.kind }
        requires shallow { length self.old.state.opened.events < self.old.state.opened.depth }
        requires lies_in { record { nesting = what.event.nesting; parent = what.event.parent }
            ≡ around self.old.state.opened.events }
        requires seated { self.old.state.place.thread ≡ None → is_let_through what.verdict ≡ false }
        requires deep { what.placed ≡ true → depth_of what.kind self.old.state.opened.events < depths what.kind }
        requires early { self.old.state.drawn + 1 < 2 ^ 64 }
        ensures state { self.new.state ≡ started self.old.state what }
        ensures journal { self.new.journal ≡ self.old.journal }
        ensures answer { result ≡ if_through what.verdict what.event.number }
    {
        // Its clause bounds how many events are open.
        let _ = self.nest.depth();
        let through = what.verdict.is_let_through();
        match self.nest.start(what) {
            Ok(()) => {}
            Err(_) => unreachable!(),
        }
        self.statements += one_if(through, is_statement(what.kind));
        self.waits += one_if(through, is_wait(what.kind));
        self.drawn += one_if(through, true);
        if_through(what.verdict, what.event.number)
    }

    /// Ends the innermost open event, with a statement's numbers; of another event they say nothing. Of an event that
    /// is let through the consumers' word and the thread's are loaded, and it is added to its cell with all that is
    /// held for it, or held with it where another actor has the cell in hand; a digested statement is added to the row
    /// of its digest in the same way. An event that was offered to its current place is put there again, and to the
    /// histories whose consumers act now, where the thread's HISTORY is YES now. The log gets the end, the additions
    /// and the puts. Answers what became of these, or the verdict of an event that isn't let through.
    pub fn end<R: Rows>(&mut self, rows: &mut R, numbers: &Numbers) -> End
        requires open { 0 < length self.old.state.opened.events }
        requires alone { (r : ℕ) → 0 < r → (R.seen rows.old).hand r ≡ None }
        requires affords { Affords 5 1 6 (R.seen rows.old) self.old.journal }
        ensures played { Played (EndsEvent numbers.now ∷ []) self.old self.new (R.seen rows.old).reached
            (R.seen rows.new).reached }
        ensures answer { SaysEnd result self.old.journal.entries self.new.journal.entries }
        ensures verdict { EndsAs self.old.state.opened.events result }
        ensures rest { self.new.state ≡ record self.old.state {
          opened = record self.old.state.opened { events = outer_events self.old.state.opened.events };
          held = self.new.state.held;
          nexts = self.new.state.nexts;
        } }
        ensures owed { length (owed_by_state self.new.state) ≤ length (owed_by_state self.old.state) + 2 }
        ensures used { Used 5 1 6 (R.seen rows.old) (R.seen rows.new) self.old.journal self.new.journal }
    {
        let what = self.close();
        if what.verdict.is_let_through() {
            End::Through(self.finish(rows, &what, numbers))
        } else {
            self.log.push(Entry::End {
                event: None,
                last: None,
                consumers: None,
                thread: None,
            });
            End::Silent(what.verdict)
        }
    }

    // Takes the innermost event out of those that are open.
    fn close(&mut self) -> Open
        requires open { 0 < length self.old.state.opened.events }
        ensures opened { self.old.state.opened.events ≡ result ∷ self.new.state.opened.events }
        ensures state { self.new.state ≡ without_innermost self.old.state }
        ensures journal { self.new.journal ≡ self.old.journal }
        ensures seated { self.old.state.place.thread ≡ None → is_let_through result.verdict ≡ false }
        ensures placed { result.placed ≡ true
            → depth_of result.kind self.new.state.opened.events < depths result.kind }
    {
        let what = match self.nest.end() {
            Ok(what) => what,
            Err(_) => unreachable!(),
        };
        let through = what.verdict.is_let_through();
        self.statements -= one_if(through, is_statement(what.kind));
        self.waits -= one_if(through, is_wait(what.kind));
        what
    }

    // Ends an event that is let through and no longer among those that are open.
    fn finish<R: Rows>(&mut self, rows: &mut R, what: &Open, numbers: &Numbers) -> Ended
        requires there { IsSome self.old.state.place.thread }
        requires deep { what.now.placed ≡ true
            → depth_of what.now.kind self.old.state.opened.events < depths what.now.kind }
        requires alone { (r : ℕ) → 0 < r → (R.seen rows.old).hand r ≡ None }
        requires affords { Affords 5 1 6 (R.seen rows.old) self.old.journal }
        ensures finished { Finished self.old self.new what.now numbers.now result (R.seen rows.old).reached
            (R.seen rows.new).reached }
        ensures rest { self.new.state ≡ record self.old.state {
          held = self.new.state.held;
          nexts = self.new.state.nexts;
        } }
        ensures owed { length (owed_by_state self.new.state) ≤ length (owed_by_state self.old.state) + 2 }
        ensures used { Used 5 1 6 (R.seen rows.old) (R.seen rows.new) self.old.journal self.new.journal }
    {
        let counting = self.count(rows, what, numbers);
        let digest = self.digest(rows, what, numbers);
        let puts = self.put(rows, what, numbers, counting.consumers, counting.thread);
        Ended {
            summary: counting.summary,
            digest,
            current: puts.current,
            history: puts.history,
            long: puts.long,
        }
    }

    // Writes the end of an event, and adds it to the row of its cell.
    fn count<R: Rows>(&mut self, rows: &mut R, what: &Open, numbers: &Numbers) -> Counting
        requires there { IsSome self.old.state.place.thread }
        requires alone { (r : ℕ) → 0 < r → (R.seen rows.old).hand r ≡ None }
        requires affords { Affords 1 0 2 (R.seen rows.old) self.old.journal }
        ensures counted { HasCounted self.old self.new what.now numbers.now result.summary result.consumers
            result.thread (R.seen rows.old).reached (R.seen rows.new).reached }
        ensures rest { self.new.state ≡ record self.old.state { held = self.new.state.held } }
        ensures owed { length (owed_by_state self.new.state) ≤ length (owed_by_state self.old.state) + 1 }
        ensures used { Used 1 0 2 (R.seen rows.old) (R.seen rows.new) self.old.journal self.new.journal }
    {
        let slot = match self.place.thread {
            Some(slot) => slot,
            None => unreachable!(),
        };
        let consumers = load_word(rows, 0);
        let thread = load_word(rows, 1 + slot);
        self.log.push(Entry::End {
            event: Some(what.event.number),
            last: Some(self.drawn),
            consumers: Some(consumers.version),
            thread: Some(thread.version),
        });
        let amount = amount_of(what, self.clock, numbers);
        let summary = bring(
            rows,
            slot,
            cell_number(what),
            amount,
            self.held.as_mut_slice(),
            &mut self.log,
        );
        Counting {
            summary,
            consumers: consumers.flags,
            thread: thread.flags,
        }
    }

    // Adds an ended event to the row of its digest, where it is a digested statement.
    fn digest<R: Rows>(&mut self, rows: &mut R, what: &Open, numbers: &Numbers) -> Option<Added>
        requires there { IsSome self.old.state.place.thread }
        requires alone { (r : ℕ) → 0 < r → (R.seen rows.old).hand r ≡ None }
        requires affords { Affords 1 0 1 (R.seen rows.old) self.old.journal }
        ensures digested { HasDigested self.old self.new what.now numbers.now result (R.seen rows.old).reached
            (R.seen rows.new).reached }
        ensures rest { self.new.state ≡ record self.old.state { held = self.new.state.held } }
        ensures owed { length (owed_by_state self.new.state) ≤ length (owed_by_state self.old.state) + 1 }
        ensures used { Used 1 0 1 (R.seen rows.old) (R.seen rows.new) self.old.journal self.new.journal }
    {
        let slot = match self.place.thread {
            Some(slot) => slot,
            None => unreachable!(),
        };
        if !what.digested {
            return None;
        }
        let amount = amount_of(what, self.clock, numbers);
        Some(bring(
            rows,
            slot,
            digest_number(what),
            amount,
            self.held.as_mut_slice(),
            &mut self.log,
        ))
    }

    // Puts an event that has ended to its current place, its history and the long history, where it is offered there by
    // these flags.
    fn put<R: Rows>(
        &mut self,
        rows: &mut R,
        what: &Open,
        numbers: &Numbers,
        consumers: u16,
        thread: u16,
    ) -> Puts
        requires there { IsSome self.old.state.place.thread }
        requires deep { what.now.placed ≡ true
            → depth_of what.now.kind self.old.state.opened.events < depths what.now.kind }
        requires alone { (r : ℕ) → 0 < r → (R.seen rows.old).hand r ≡ None }
        requires affords { Affords 3 1 3 (R.seen rows.old) self.old.journal }
        ensures puts { HasPuts self.old self.new what.now numbers.now consumers thread result.current result.history
            result.long (R.seen rows.old).reached (R.seen rows.new).reached }
        ensures stand { StandInRings result.current result.history result.long }
        ensures rest { self.new.state ≡ record self.old.state { nexts = self.new.state.nexts } }
        ensures used { Used 3 1 3 (R.seen rows.old) (R.seen rows.new) self.old.journal self.new.journal }
    {
        if !what.placed {
            return Puts {
                current: None,
                history: None,
                long: None,
            };
        }
        let slot = match self.place.thread {
            Some(slot) => slot,
            None => unreachable!(),
        };
        let kind = what.kind;
        let event = ended_event(what, self.drawn, self.clock, numbers);
        let first = Ring::Current {
            thread: slot,
            kind,
            depth: self.depth(kind),
        };
        let current = offer(rows, what.placed, first, &event, &mut self.log);
        let next = Ring::History {
            thread: slot,
            kind,
            place: self.nexts.of(kind),
        };
        let due = goes_on(what.placed, history_consumer(kind), consumers, thread);
        let history = offer(rows, due, next, &event, &mut self.log);
        self.nexts = self.nexts.moved_by(kind, &history);
        let due = goes_on(what.placed, long_consumer(kind), consumers, thread);
        let long = offer(rows, due, Ring::Long { kind }, &event, &mut self.log);
        Puts {
            current,
            history,
            long,
        }
    }

    /// Ends the open stage, where the innermost open event is one, and starts another, where one is given. What a
    /// start asks for holds of the events that are open then.
    pub fn stage<R: Rows>(
        &mut self,
        rows: &mut R,
        what: &Option<Subject>,
    ) -> (Option<End>, Option<Started>)
        requires may { StageMayStart (record self.old.state.opened {
          events = without_stage self.old.state.opened.events;
        }) what.now }
        requires early { IfSome what.now (λ subject. self.old.state.drawn + 1 < 2 ^ 64) }
        requires alone { (r : ℕ) → 0 < r → (R.seen rows.old).hand r ≡ None }
        requires affords { Affords 6 1 8 (R.seen rows.old) self.old.journal }
        ensures played { Played (stage_steps self.old.state.opened.events what.now) self.old self.new
            (R.seen rows.old).reached (R.seen rows.new).reached }
        ensures answer { SaysStage self.old.state.opened.events what.now result.0 result.1
            self.old.journal.entries self.new.journal.entries }
        ensures verdict { IfSome result.0 (EndsAs self.old.state.opened.events) }
        ensures opened { HasStaged what.now self.old.state.opened self.new.state.opened }
        ensures drawn { self.new.state.drawn ≤ self.old.state.drawn + 1 }
        ensures rest { self.new.state ≡ record self.old.state {
          drawn = self.new.state.drawn;
          opened = self.new.state.opened;
          held = self.new.state.held;
          nexts = self.new.state.nexts;
        } }
        ensures owed { length (owed_by_state self.new.state) ≤ length (owed_by_state self.old.state) + 2 }
        ensures used { Used 6 1 8 (R.seen rows.old) (R.seen rows.new) self.old.journal self.new.journal }
    {
        let ended = self.end_stage(rows);
        match what {
            Some(subject) => {
                let begun = self.start(rows, subject);
                (ended, Some(begun))
            }
            None => (ended, None),
        }
    }

    // Ends the open stage, where the innermost open event is one.
    fn end_stage<R: Rows>(&mut self, rows: &mut R) -> Option<End>
        requires alone { (r : ℕ) → 0 < r → (R.seen rows.old).hand r ≡ None }
        requires affords { Affords 5 1 6 (R.seen rows.old) self.old.journal }
        ensures played { Played (stage_ends self.old.state.opened.events) self.old self.new (R.seen rows.old).reached
            (R.seen rows.new).reached }
        ensures answer { SaysStageEnd (is_in_stage self.old.state.opened.events) result self.old.journal.entries
            self.new.journal.entries }
        ensures verdict { IfSome result (EndsAs self.old.state.opened.events) }
        ensures rest { self.new.state ≡ record self.old.state {
          opened = record self.old.state.opened { events = without_stage self.old.state.opened.events };
          held = self.new.state.held;
          nexts = self.new.state.nexts;
        } }
        ensures owed { length (owed_by_state self.new.state) ≤ length (owed_by_state self.old.state) + 2 }
        ensures used { Used 5 1 6 (R.seen rows.old) (R.seen rows.new) self.old.journal self.new.journal }
    {
        let is_open = match self.nest.innermost() {
            Some(what) => what.kind == EventKind::Stage,
            None => false,
        };
        if is_open {
            Some(self.end(rows, &Numbers::NONE))
        } else {
            None
        }
    }

    /// Connects the session, an action, which is its first: it gets the places that the administration finds for this
    /// user and this host. The log gets what `Admin::connect` gives it.
    pub fn connect<H: Hold>(
        &mut self,
        rows: &mut H,
        admin: &mut Admin,
        user: NameId,
        host: NameId,
    ) -> Placed
        requires first { self.old.state.actions ≡ 0 }
        requires unplaced { self.old.state.place ≡ no_place }
        requires closed { self.old.state.opened.events ≡ [] }
        requires user { user < length admin.old.names }
        requires host { host < length admin.old.names }
        requires may { MayWork 4 6 admin.old (H.seen rows.old) self.old.journal }
        ensures played { Played (Connects admin.old user host ∷ []) self.old self.new (H.seen rows.old).reached
            (H.seen rows.new).reached }
        ensures admin { admin.new ≡ connected admin.old self.old.state.number user host }
        ensures placed { result ≡ placed_of (seat_at admin.old self.old.state.number user host) }
        ensures slot { IfSome result.thread (λ n. n < 32) }
        ensures rest { self.new.state ≡ record self.old.state {
          place = result;
          actions = 1;
          last = self.new.state.last;
        } }
        ensures owed { owed_by_state self.new.state ≡ [] }
        ensures held { self.new.state.held ≡ nothing_held }
        ensures used { Used 4 0 6 (lent_as admin.new.words (H.seen rows.old)) (H.seen rows.new) self.old.journal
            self.new.journal }
    {
        let placed = admin.connect(rows, self.number, user, host, &mut self.log);
        self.place = placed;
        self.actions += 1;
        self.last = Some(LastAction {
            number: admin.actions(),
            lost: admin.lost(),
        });
        placed
    }

    /// Ends the session's connection, an action: what it holds is settled, and then its numbers move up and its places
    /// are left. Nothing may be open. The log gets the settling, the action, and what `Admin::quit` gives it.
    pub fn quit<H: Hold>(&mut self, rows: &mut H, admin: &mut Admin)
        requires closed { self.old.state.opened.events ≡ [] }
        requires early { self.old.state.actions + 1 < 2 ^ 64 }
        requires may { MayWork (length (owed_by_state self.old.state) + 252) (settle_cost
            (owed_by_state self.old.state) + 254) admin.old (H.seen rows.old) self.old.journal }
        ensures played { Played (SettlesHeld ∷ Quits admin.old ∷ []) self.old self.new (H.seen rows.old).reached
            (H.seen rows.new).reached }
        ensures admin { admin.new ≡ has_quit admin.old self.old.state.number }
        ensures rest { self.new.state ≡ record self.old.state {
          place = no_place;
          held = nothing_held;
          actions = self.old.state.actions + 1;
          last = self.new.state.last;
        } }
        ensures used { Used (length (owed_by_state self.old.state) + 252) 0 (settle_cost (owed_by_state self.old.state)
            + 254) (lent_as admin.new.words (H.seen rows.old)) (H.seen rows.new) self.old.journal self.new.journal }
    {
        self.settle(rows);
        self.log.push(Entry::Act {
            action: admin.actions() + 1,
        });
        admin.quit(rows, self.number, &mut self.log);
        self.place = Placed {
            thread: None,
            account: None,
            user: None,
            host: None,
        };
        self.actions += 1;
        self.last = Some(LastAction {
            number: admin.actions(),
            lost: admin.lost(),
        });
    }

    /// Truncates a table, an action: what the session holds is settled first. The log gets the settling, the action,
    /// what `Admin::truncate` gives it, and the answer: a truncation changes no rows, as MySQL counts them.
    pub fn truncate<H: Hold>(&mut self, rows: &mut H, admin: &mut Admin, what: Truncation) -> Reply
        requires early { self.old.state.actions + 1 < 2 ^ 64 }
        requires may { MayWork (length (owed_by_state self.old.state) + truncation_cost admin.old what) (settle_cost
            (owed_by_state self.old.state) + (truncation_cost admin.old what + 2)) admin.old (H.seen rows.old)
            self.old.journal }
        ensures played { Played (SettlesHeld ∷ Truncates admin.old what ∷ []) self.old self.new
            (H.seen rows.old).reached (H.seen rows.new).reached }
        ensures admin { admin.new ≡ has_truncated admin.old what }
        ensures rest { self.new.state ≡ record self.old.state {
          held = nothing_held;
          actions = self.old.state.actions + 1;
          last = self.new.state.last;
        } }
        ensures reply { result ≡ Reply.Changed 0 }
        ensures used { Used (length (owed_by_state self.old.state) + truncation_cost admin.old what) 0 (settle_cost
            (owed_by_state self.old.state) + (truncation_cost admin.old what + 2)) (lent_as admin.new.words
            (H.seen rows.old)) (H.seen rows.new) self.old.journal self.new.journal }
    {
        self.settle(rows);
        self.log.push(Entry::Act {
            action: admin.actions() + 1,
        });
        admin.truncate(rows, what, &mut self.log);
        self.log.push(Entry::Reply { number: 0 });
        self.actions += 1;
        self.last = Some(LastAction {
            number: admin.actions(),
            lost: admin.lost(),
        });
        Reply::Changed(0)
    }

    /// Adds all that is held, each amount to its row, in the order of the rows, and holds nothing any more.
    pub(crate) fn settle<H: Hold>(&mut self, rows: &mut H)
        requires alone { (r : ℕ) → 0 < r → (H.seen rows.old).hand r ≡ None }
        requires affords { Affords (length (owed_by_state self.old.state)) 0
            (settle_cost (owed_by_state self.old.state)) (H.seen rows.old) self.old.journal }
        ensures played { Played (SettlesHeld ∷ []) self.old self.new (H.seen rows.old).reached
            (H.seen rows.new).reached }
        ensures state { self.new.state ≡ record self.old.state { held = nothing_held } }
        ensures used { Used (length (owed_by_state self.old.state)) 0 (settle_cost (owed_by_state self.old.state))
            (H.seen rows.old) (H.seen rows.new) self.old.journal self.new.journal }
    {
        settle_all(rows, self.place.thread, self.held.as_slice(), &mut self.log);
        clear(self.held.as_mut_slice());
    }

    /// Settles all that is held, at the end of the session's block in a phase.
    pub fn pause<H: Hold>(self, rows: &mut H) -> Paused
        requires alone { (r : ℕ) → 0 < r → (H.seen rows.old).hand r ≡ None }
        requires affords { Affords (length (owed_by_state self.state)) 0 (settle_cost (owed_by_state self.state))
            (H.seen rows.old) self.journal }
        ensures played { Played (SettlesHeld ∷ []) self result (H.seen rows.old).reached (H.seen rows.new).reached }
        ensures state { result.state ≡ record self.state { held = nothing_held } }
        ensures used { Used (length (owed_by_state self.state)) 0 (settle_cost (owed_by_state self.state))
            (H.seen rows.old) (H.seen rows.new) self.journal result.journal }
    {
        let mut session = self;
        session.settle(rows);
        Paused { session }
    }
}
