//! A session's statements on the setup tables.

ghost use Rattle.std.specs.Prelude.{◌≡◌, ◌<◌, ◌≤◌, ◌+◌, ◌^◌, ◌∷◌, ◌++◌, [], ℕ, length, Some, None};
ghost use Rattle.pfs_levels.specs.Views.{Used, lent_as};
ghost use Rattle.pfs_admin.specs.SetupStatements.{has_changed, most_of, reply_to, work_of_statement};
ghost use Rattle.pfs_admin.specs.Works.{Worked};
ghost use Rattle.pfs_session.specs.CallCosts.{MayWork};
ghost use Rattle.pfs_session.specs.Settlements.{owed_by_state, settle_cost};
ghost use Rattle.pfs_session.specs.SessionStates.{nothing_held};
ghost use Rattle.pfs_session.specs.Turns.{Played, Changes, SettlesHeld, is_answered, reply_entry, answer_entries};

use crate::outcomes::LastAction;
use crate::session::Session;
use pfs_admin::{Admin, Reply, SetupStatement};
use pfs_event::Entry;
use pfs_levels::{Hold, Log};

impl Session {
    /// Does a statement on the setup tables, an action: what the session holds is settled first. The log gets the
    /// settling, the action, what the call of `Admin` gives it, and the answer, `reply` or `error`. A SELECT has no
    /// answer here: how many rows it shows is said by [append](Session::append), before the administration is left.
    pub fn act<H: Hold>(&mut self, rows: &mut H, admin: &mut Admin, what: SetupStatement) -> Reply
        requires early { self.old.state.actions + 1 < 2 ^ 64 }
        requires may { MayWork (length (owed_by_state self.old.state)) (settle_cost (owed_by_state self.old.state) +
            (most_of what + 2)) admin.old (H.seen rows.old) self.old.journal }
        ensures played { Played (SettlesHeld ∷ Changes admin.old what ∷ []) self.old self.new (H.seen rows.old).reached
            (H.seen rows.new).reached }
        ensures admin { admin.new ≡ has_changed admin.old what }
        ensures rest { self.new.state ≡ record self.old.state {
          held = nothing_held;
          actions = self.old.state.actions + 1;
          last = self.new.state.last;
        } }
        ensures reply { result ≡ reply_to admin.old what }
        ensures used { Used (length (owed_by_state self.old.state)) 0 (settle_cost (owed_by_state self.old.state) +
            (most_of what + 2)) (lent_as admin.new.words (H.seen rows.old)) (H.seen rows.new) self.old.journal
            self.new.journal }
    {
        self.settle(rows);
        self.log.push(Entry::Act {
            action: admin.actions() + 1,
        });
        let answered = is_answered(&what);
        let reply = state(rows, admin, what, &mut self.log);
        answer(answered, reply, &mut self.log);
        self.actions += 1;
        self.last = Some(LastAction {
            number: admin.actions(),
            lost: admin.lost(),
        });
        reply
    }
}

// Whether the journal has its answer.
fn is_answered(what: &SetupStatement) -> bool
    ensures { result ≡ is_answered what.now }
{
    match what {
        SetupStatement::Show => false,
        SetupStatement::Update(_) | SetupStatement::Insert(_) | SetupStatement::Delete(_) => true,
    }
}

// Does it. The log gets the words that it sets.
fn state<H: Hold>(rows: &mut H, admin: &mut Admin, what: SetupStatement, log: &mut Log) -> Reply
    requires few { admin.old.actions < 2 ^ 47 }
    requires lent { (H.seen rows.old).words ≡ Some admin.old.words }
    requires room { most_of what ≤ log.old.room }
    ensures step { admin.new ≡ has_changed admin.old what }
    ensures reply { result ≡ reply_to admin.old what }
    ensures worked { Worked (work_of_statement admin.old what) admin.old.words [] log.old log.new
        (H.seen rows.old).reached (H.seen rows.new).reached }
    ensures used { Used 0 0 (most_of what) (lent_as admin.new.words (H.seen rows.old)) (H.seen rows.new) log.old
        log.new }
{
    match what {
        SetupStatement::Update(update) => admin.update(rows, &update, log),
        SetupStatement::Insert(insert) => admin.insert(rows, insert, log),
        SetupStatement::Delete(delete) => admin.delete(rows, &delete, log),
        SetupStatement::Show => {
            admin.note();
            Reply::Changed(0)
        }
    }
}

// Writes an answer, where the journal has it.
fn answer(answered: bool, reply: Reply, log: &mut Log)
    requires room { 1 ≤ log.old.room }
    ensures entries { log.new.entries ≡ log.old.entries ++ answer_entries answered reply }
    ensures room { log.old.room ≤ log.new.room + 1 }
{
    if answered {
        log.push(reply_entry(reply));
    }
}

fn reply_entry(reply: Reply) -> Entry
    ensures { result ≡ reply_entry reply }
{
    match reply {
        Reply::Changed(number) => Entry::Reply { number },
        Reply::Error(error) => Entry::Error {
            number: u64::from(error),
        },
    }
}
