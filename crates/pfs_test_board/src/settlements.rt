//! The root of a board takes in actors whose sessions found no place for all, and settles.

ghost use Rattle.std.specs.Prelude.{◌≡◌, ◌<◌, ◌≤◌, ◌==◌, ℕ, if◌then◌else◌, length};
ghost use Rattle.pfs_admin.specs.declared.changes.Change.TheVariants.{Connect};
ghost use Rattle.pfs_board_opening.specs.Opened.{AreFresh};
ghost use Rattle.pfs_law_plain.specs.Spells.{label_of};
ghost use Rattle.pfs_session.specs.SessionStates.{fresh};
ghost use Rattle.pfs_test_board.specs.TestActors.{IsBegun, Leads};

use crate::asserts::same;
use crate::tables::{session, setting};
use pfs_actor::Actor;
use pfs_admin::Lost;
use pfs_board::NoMemory;
use pfs_board_opening::{Picked, Run, RunWords, Tables, open_tables, open_words};
use pfs_board_session::OpenGate;
use pfs_board_store::Seats;
use pfs_classes::Setting;
use pfs_names::NameId;
use pfs_session::Session;
use std::alloc::Global;
use std::marker::Brand;
use std::sync::Wait;
use std::test::Fail;

const SCRIPT: &[u8] =
    b"limit thread_instances 2\nlimit accounts 1\nlimit users 1\nlimit hosts 1\nphase\nsession 1 u h\n";

// A session connects with these names.
fn come<A: Actor>(actor: &mut A, session: Session, user: NameId, host: NameId)
    requires named { A.change (label_of session.state) ≡ Connect user host }
    requires names { (user < length A.setting.names) × (host < length A.setting.names) }
    requires state { (number : ℕ) × (session.state ≡ fresh number 10 1) }
    requires room { 6 ≤ session.journal.room }
    requires begun { IsBegun (A.seen actor.old).reached }
    requires left { 5 ≤ (A.seen actor.old).left }
    ensures led { Leads (A.seen actor.old).reached (A.seen actor.new).reached }
{
    let mut session = session;
    actor.connect(&mut session, user, host);
}

// Three sessions connect over actors of their own of a new board, which the root takes in and settles: what found no
// place.
fn settle_on_a_board<P: Picked, R: Wait>(
    rt: &R,
    alloc: Global,
    setting: &Setting,
    words: RunWords,
    sessions: (Session, Session, Session),
) -> Result<Lost, NoMemory>
    requires run { (P.setting ≡ setting.now) × (words.switches.id ≡ P.switches) }
    requires fresh { AreFresh setting.now words.switches words.seat words.writer }
    requires changes { P.change ≡ (λ label. if label.session == 2 then Connect 1 0 else Connect 0 1) }
    requires names { 2 ≤ length setting.now.names }
    requires states { (sessions.0.state ≡ fresh 1 10 1) × (sessions.1.state ≡ fresh 2 10 1)
        × (sessions.2.state ≡ fresh 3 10 1) }
    requires room { (6 ≤ sessions.0.journal.room) × (6 ≤ sessions.1.journal.room) × (6 ≤ sessions.2.journal.room) }
{
    let gate = OpenGate;
    let (first, second, third) = sessions;
    let (tables, seats): (Tables<Run<P>>, Seats) = open_tables(alloc, setting, words)?;
    let mut root = tables.begin(seats);
    let mut one = root.split(rt, &gate, 100, 10);
    let mut two = root.split(rt, &gate, 100, 10);
    let mut three = root.split(rt, &gate, 100, 10);
    come(&mut one, first, NameId(0), NameId(1));
    come(&mut two, second, NameId(1), NameId(0));
    come(&mut three, third, NameId(0), NameId(1));
    root.take_in(three);
    root.take_in(two);
    root.take_in(one);
    Ok(root.settle())
}

// There is room for two threads, one account, one user and one host. The second session has another account, another
// user and another host than the first, and the third is one thread too many: each of the four is lost once.
#[test]
fn a_settlement_answers_what_found_no_place(rt: HostRuntime) -> Result<(), Fail> {
    let alloc = rt.alloc();
    let setting = setting(alloc, SCRIPT)?;
    let words = open_words(alloc, &setting)?;
    let sessions = (
        session(alloc, 1, 6)?,
        session(alloc, 2, 6)?,
        session(alloc, 3, 6)?,
    );
    let lost = settle_on_a_board::<Brand, HostRuntime>(&rt, alloc, &setting, words, sessions)?;
    let due = Lost {
        threads: 1,
        accounts: 1,
        users: 1,
        hosts: 1,
    };
    same(&rt, "lost", lost, due);
    Ok(())
}
