//! Sessions over a plain store, and over one that refuses additions and puts.

ghost use Rattle.std.specs.Prelude.{◌≡◌, ◌≤◌, ◌<◌, ◌+◌, ◌^◌, ℕ, [], Some, None, IfOk, IfSome, length};
ghost use Rattle.pfs_admin.specs.OpeningState.{opened};
ghost use Rattle.pfs_event.specs.Nests.{MayStart};
ghost use Rattle.pfs_levels.specs.Calls.{IsRow};
ghost use Rattle.pfs_levels.specs.Views.{Affords, Used};
ghost use Rattle.pfs_session.specs.Settlements.{owed_by_state};

use crate::actions::opened;
use crate::admin;
use crate::asserts::same;
use crate::levels::said;
use pfs_admin::Admin;
use pfs_classes::Setting;
use pfs_event::{Entry, EventKind, Verdict};
use pfs_levels::{Added, Content, Hold, Log, PlainRows, Readable, RingPut, Rows};
use pfs_model::Subject;
use pfs_names::NameId;
use pfs_rows::Seen;
use pfs_session::{NoMemory, Numbers, Session};
use pfs_stat::Stat;
use std::alloc::{AllocError, Global};
use std::process::Abort;
use std::test::Fail;

mod actions;
mod looks;
mod rings;

const LONG_HISTORY: u64 = 10_242;

// A plain store that refuses so many additions and so many puts first.
#[derive(Drop)]
struct Refusing {
    rows: PlainRows,
    additions: u64,
    puts: u64,
}

impl Readable for Refusing {
    ghost seen = { λ s. record {
      reached = λ start calls. Unit {0};
      hand = (⟦<PlainRows as Readable>⟧.seen s.rows).hand;
      left = (⟦<PlainRows as Readable>⟧.seen s.rows).left;
      draws = (⟦<PlainRows as Readable>⟧.seen s.rows).draws;
      words = (⟦<PlainRows as Readable>⟧.seen s.rows).words;
      name = 0;
    } };

    fn read(&mut self, row: u64) -> Seen {
        self.rows.read(row)
    }

    fn load(&mut self, word: u64) -> (u64, u16) {
        self.rows.load(word)
    }
}

impl Rows for Refusing {
    fn add_try(&mut self, row: u64, amount: &Stat) -> Added {
        if self.additions > 0 {
            self.additions -= 1;
            return Added::Held {
                row,
                first: 1,
                second: 1,
            };
        }
        self.rows.add_try(row, amount)
    }

    fn ring_try(&mut self, row: u64, content: &Content) -> RingPut {
        if self.puts == 0 {
            return self.rows.ring_try(row, content);
        }
        self.puts -= 1;
        if row < LONG_HISTORY {
            return RingPut::Busy {
                first: 1,
                second: 1,
            };
        }
        // Word 15 is one more than the event's ticket.
        RingPut::Late {
            ticket: content[15],
            version: 1,
        }
    }

    fn ticket(&mut self, kind: u64) -> u64 {
        self.rows.ticket(kind)
    }
}

impl Hold for Refusing {
    fn take(&mut self, row: u64) -> (u64, Content) {
        self.rows.take(row)
    }

    fn put(&mut self, row: u64, content: &Content) -> u64 {
        self.rows.put(row, content)
    }

    fn free(&mut self, row: u64) {
        self.rows.free(row)
    }

    fn set(&mut self, word: u64, flags: u16) -> u64 {
        self.rows.set(word, flags)
    }
}

// A store that opens with the setting's flags, and refuses so many additions and puts first.
fn store(alloc: Global, setting: &Setting, additions: u64, puts: u64) -> Result<Refusing, NoMemory>
    ensures words { IfOk result (λ rows. (⟦<Refusing as Readable>⟧.seen rows).words ≡ Some (opened setting.now).words) }
    ensures left { IfOk result (λ rows. (⟦<Refusing as Readable>⟧.seen rows).left ≡ 2 ^ 47) }
    ensures draws { IfOk result (λ rows. (⟦<Refusing as Readable>⟧.seen rows).draws ≡ 2 ^ 47) }
    ensures hand { IfOk result (λ rows. (r : ℕ) → (⟦<Refusing as Readable>⟧.seen rows).hand r ≡ None) }
{
    let rows = admin::store(alloc, setting)?;
    Ok(Refusing {
        rows,
        additions,
        puts,
    })
}

// The same store, and the administration as it opens.
fn fresh(
    alloc: Global,
    setting: &Setting,
    additions: u64,
    puts: u64,
) -> Result<(Refusing, Admin), NoMemory>
    requires names { 2 ≤ length setting.now.names }
    ensures words { IfOk result (λ b. (⟦<Refusing as Readable>⟧.seen b.0).words ≡ Some b.1.words) }
    ensures left { IfOk result (λ b. (⟦<Refusing as Readable>⟧.seen b.0).left ≡ 2 ^ 47) }
    ensures draws { IfOk result (λ b. (⟦<Refusing as Readable>⟧.seen b.0).draws ≡ 2 ^ 47) }
    ensures hand { IfOk result (λ b. (r : ℕ) → (⟦<Refusing as Readable>⟧.seen b.0).hand r ≡ None) }
    ensures admin { IfOk result (λ b. (b.1.actions ≡ 0) × (2 ≤ length b.1.names)) }
{
    let rows = store(alloc, setting, additions, puts)?;
    let admin = Admin::open(alloc, setting)?;
    Ok((rows, admin))
}

// What a wait of class 6 is, and a statement of class 17 without a digest's place.
const WAIT: Subject = Subject {
    kind: EventKind::Wait,
    class: Some(6),
    cell: 6,
    table: None,
    digest: None,
};

const STATEMENT: Subject = Subject {
    kind: EventKind::Statement,
    class: Some(17),
    cell: 17,
    table: None,
    digest: None,
};

// An event of so many picoseconds, of a session with nothing open.
fn event<R: Rows>(session: &mut Session, rows: &mut R, what: &Subject, time: u64) -> Verdict
    requires may { MayStart session.old.state.opened what.now.kind }
    requires class { IfSome what.now.class (λ n. n < 63) }
    requires table { IfSome what.now.table (λ n. n < 64) }
    requires digest { IfSome what.now.digest (λ n. n < 64) }
    requires closed { session.old.state.opened ≡ record { depth = 1; events = [] } }
    requires early { session.old.state.drawn + 1 < 2 ^ 64 }
    requires alone { (r : ℕ) → 0 < r → (R.seen rows.old).hand r ≡ None }
    requires affords { Affords 6 1 8 (R.seen rows.old) session.old.journal }
    ensures closed { session.new.state.opened ≡ record { depth = 1; events = [] } }
    ensures drawn { session.new.state.drawn ≤ session.old.state.drawn + 1 }
    ensures owed { length (owed_by_state session.new.state) ≤ length (owed_by_state session.old.state) + 2 }
    ensures used { Used 6 1 8 (R.seen rows.old) (R.seen rows.new) session.old.journal session.new.journal }
    ensures actions { session.new.state.actions ≡ session.old.state.actions }
{
    let started = session.start(rows, what);
    session.spend(time);
    session.end(rows, &Numbers::NONE);
    started.verdict
}

// The same of one that counts.
fn record<R: Rows>(
    session: &mut Session,
    rows: &mut R,
    what: &Subject,
    time: u64,
) -> Result<(), Fail>
    requires may { MayStart session.old.state.opened what.now.kind }
    requires class { IfSome what.now.class (λ n. n < 63) }
    requires table { IfSome what.now.table (λ n. n < 64) }
    requires digest { IfSome what.now.digest (λ n. n < 64) }
    requires closed { session.old.state.opened ≡ record { depth = 1; events = [] } }
    requires early { session.old.state.drawn + 1 < 2 ^ 64 }
    requires alone { (r : ℕ) → 0 < r → (R.seen rows.old).hand r ≡ None }
    requires affords { Affords 6 1 8 (R.seen rows.old) session.old.journal }
    ensures closed { session.new.state.opened ≡ record { depth = 1; events = [] } }
    ensures drawn { session.new.state.drawn ≤ session.old.state.drawn + 1 }
    ensures owed { length (owed_by_state session.new.state) ≤ length (owed_by_state session.old.state) + 2 }
    ensures used { Used 6 1 8 (R.seen rows.old) (R.seen rows.new) session.old.journal session.new.journal }
    ensures actions { session.new.state.actions ≡ session.old.state.actions }
{
    match event(session, rows, what, time) {
        Verdict::Attributed => Ok(()),
        _ => Err(Fail::from("not attributed")),
    }
}

fn record_often<R: Rows>(
    session: &mut Session,
    rows: &mut R,
    what: &Subject,
    times: &[u64],
) -> Result<(), Fail>
    requires few { length times.now ≤ 3 }
    requires may { MayStart (record { depth = 1; events = [] }) what.now.kind }
    requires class { IfSome what.now.class (λ n. n < 63) }
    requires table { IfSome what.now.table (λ n. n < 64) }
    requires digest { IfSome what.now.digest (λ n. n < 64) }
    requires closed { session.old.state.opened ≡ record { depth = 1; events = [] } }
    requires early { session.old.state.drawn ≡ 0 }
    requires alone { (r : ℕ) → 0 < r → (R.seen rows.old).hand r ≡ None }
    requires affords { Affords 18 3 24 (R.seen rows.old) session.old.journal }
    ensures owed { length (owed_by_state session.new.state) ≤ length (owed_by_state session.old.state) + 6 }
    ensures hand { (r : ℕ) → (R.seen rows.new).hand r ≡ (R.seen rows.old).hand r }
    ensures left { (R.seen rows.old).left ≤ (R.seen rows.new).left + 18 }
    ensures room { session.old.journal.room ≤ session.new.journal.room + 24 }
{
    for time in times {
        record(session, rows, what, *time)?;
    }
    Ok(())
}

// What a session's events leave: its journal, and a row's version and content.
#[derive(Drop)]
struct Recorded {
    log: Log,
    version: u64,
    content: Content,
}

// A session that has connected with the first two names.
fn connected_session<H: Hold>(
    alloc: Global,
    rows: &mut H,
    admin: &mut Admin,
) -> Result<Session, Fail>
    requires fresh { (admin.old.actions ≡ 0) × (2 ≤ length admin.old.names) }
    requires words { (H.seen rows.old).words ≡ Some admin.old.words }
    requires hand { (r : ℕ) → (H.seen rows.old).hand r ≡ None }
    requires left { 4 ≤ (H.seen rows.old).left }
    ensures session { IfOk result (λ s. (s.state.opened ≡ record { depth = 1; events = [] }) × (s.state.drawn ≡ 0)
        × (length (owed_by_state s.state) ≡ 0) × (302 ≤ s.journal.room)) }
    ensures hand { (r : ℕ) → (H.seen rows.new).hand r ≡ None }
    ensures left { (H.seen rows.old).left ≤ (H.seen rows.new).left + 4 }
    ensures draws { (H.seen rows.old).draws ≤ (H.seen rows.new).draws }
{
    let mut session = opened(alloc, 308)?;
    session.connect(rows, admin, NameId(0), NameId(1));
    Ok(session)
}

// What a session has written when it has paused, and how many entries it writes as it pauses again.
fn settled<H: Hold>(session: Session, rows: &mut H) -> (Log, usize)
    requires hand { (r : ℕ) → (H.seen rows.old).hand r ≡ None }
    requires owed { length (owed_by_state session.state) ≤ 6 }
    requires spare { 6 ≤ (H.seen rows.old).left }
    requires room { 7 ≤ session.journal.room }
    ensures { (r : ℕ) → (H.seen rows.new).hand r ≡ None }
{
    let mut paused = session.pause(rows);
    let log = paused.take_log();
    let mut again = paused.resume().pause(rows);
    (log, again.take_log().count())
}

// A session connects, records events as often as there are times and pauses, over this store; then a row is read. To
// pause again writes nothing.
fn session_records<H: Hold>(
    alloc: Global,
    rows: &mut H,
    admin: &mut Admin,
    what: &Subject,
    times: &[u64],
    row: u64,
) -> Result<Recorded, Fail>
    requires few { length times.now ≤ 3 }
    requires may { MayStart (record { depth = 1; events = [] }) what.now.kind }
    requires class { IfSome what.now.class (λ n. n < 63) }
    requires table { IfSome what.now.table (λ n. n < 64) }
    requires digest { IfSome what.now.digest (λ n. n < 64) }
    requires fresh { (admin.old.actions ≡ 0) × (2 ≤ length admin.old.names) }
    requires words { (H.seen rows.old).words ≡ Some admin.old.words }
    requires hand { (r : ℕ) → (H.seen rows.old).hand r ≡ None }
    requires spare { (28 ≤ (H.seen rows.old).left) × (3 ≤ (H.seen rows.old).draws) }
    requires row { IsRow row }
{
    let mut session = connected_session(alloc, rows, admin)?;
    record_often(&mut session, rows, what, times)?;
    let (log, more) = settled(session, rows);
    if more != 0 {
        return Err(Fail::from("something was settled twice"));
    }
    match rows.read(row) {
        Seen::Whole { version, content } => Ok(Recorded {
            log,
            version,
            content,
        }),
        _ => Err(Fail::from("the row is not whole")),
    }
}

// What waits leave, and row 135, where the store refuses so many additions first.
fn record_waits(alloc: Global, additions: u64, times: &[u64]) -> Result<Recorded, Fail>
    requires { length times.now ≤ 3 }
{
    let setting = admin::setting(alloc)?;
    let (mut rows, mut admin) = fresh(alloc, &setting, additions, 0)?;
    session_records(alloc, &mut rows, &mut admin, &WAIT, times, 135)
}

// The entries of a session's connect.
fn connected() -> [Entry; 6] {
    [
        Entry::Connect {
            action: 1,
            thread: Some(0),
            account: Some(0),
            user: Some(0),
            host: Some(0),
        },
        Entry::Tag { row: 1, version: 1 },
        Entry::Tag {
            row: 33,
            version: 1,
        },
        Entry::Tag {
            row: 65,
            version: 1,
        },
        Entry::Tag {
            row: 97,
            version: 1,
        },
        Entry::Set {
            word: 1,
            version: 1,
            flags: 3,
        },
    ]
}

// The entries of a session's connect, and these behind them.
fn behind_connect(alloc: Global, entries: &[Entry]) -> Result<Vec<Entry>, AllocError> {
    let mut list = Vec::from_slice(alloc, connected().as_slice())?;
    list.extend_from_slice(entries)?;
    Ok(list)
}

fn start(number: u64) -> Entry {
    Entry::Start {
        event: Some(number),
        verdict: Verdict::Attributed,
        consumers: Some(0),
        thread: Some(1),
        class: Some(0),
        table: None,
    }
}

fn end(number: u64) -> Entry {
    Entry::End {
        event: Some(number),
        last: Some(number),
        consumers: Some(0),
        thread: Some(1),
    }
}

const ADDED: Entry = Entry::Add {
    row: 135,
    version: 1,
};

const HELD: Entry = Entry::Held {
    row: 135,
    first: 1,
    second: 1,
};

// A session's waits leave these entries behind its connect's, and in row 135 this version, count, sum, least and
// greatest time.
fn expect(
    rt: &impl Abort,
    alloc: Global,
    ran: &Recorded,
    entries: &[Entry],
    row: (u64, u64, u64, u64, u64),
) -> Result<(), AllocError> {
    let list = said(alloc, &ran.log)?;
    let due = behind_connect(alloc, entries)?;
    same(rt, "entries", list.as_slice(), due.as_slice());
    let stat = Stat::of_words(&ran.content);
    let seen = (ran.version, stat.count, stat.sum, stat.min, stat.max);
    same(rt, "row", seen, row);
    Ok(())
}

#[test]
fn a_wait_is_counted(rt: HostRuntime) -> Result<(), Fail> {
    let ran = record_waits(rt.alloc(), 0, &[120])?;
    let due = [start(1), end(1), ADDED];
    expect(&rt, rt.alloc(), &ran, &due, (1, 1, 120, 120, 120))?;
    Ok(())
}

#[test]
fn what_is_held_is_added_with_the_next(rt: HostRuntime) -> Result<(), Fail> {
    let ran = record_waits(rt.alloc(), 2, &[5, 7, 9])?;
    let due = [
        start(1),
        end(1),
        HELD,
        start(2),
        end(2),
        HELD,
        start(3),
        end(3),
        ADDED,
    ];
    expect(&rt, rt.alloc(), &ran, &due, (1, 3, 21, 5, 9))?;
    Ok(())
}

#[test]
fn what_is_held_is_settled_at_a_pause(rt: HostRuntime) -> Result<(), Fail> {
    let ran = record_waits(rt.alloc(), 1, &[5])?;
    let due = [start(1), end(1), HELD, Entry::Settle, ADDED];
    expect(&rt, rt.alloc(), &ran, &due, (1, 1, 5, 5, 5))?;
    Ok(())
}
