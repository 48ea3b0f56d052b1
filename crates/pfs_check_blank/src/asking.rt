//! What an administration asks for at an action, all of it.

ghost use Rattle.std.specs.Prelude.{◌≡◌, ◌<◌, ◌≤◌, ◌+◌, ◌^◌, ◌∷◌, [], length};
ghost use Rattle.pfs_admin.specs.AdministrationStates.{connected, has_quit, seat_at};
ghost use Rattle.pfs_admin.specs.ConnectionAsks.{connect_entry, placed_of, work_of_connect, work_of_quit};
ghost use Rattle.pfs_admin.specs.SetupStatements.{has_changed, reply_to, work_of_statement};
ghost use Rattle.pfs_admin.specs.Truncations.{has_truncated, work_of_truncation};
ghost use Rattle.pfs_admin.specs.declared.changes.SetupStatement.TheVariants as statements;
ghost use Rattle.pfs_check_blank.specs.AllAsked.{AreWritten, IsAsked};
ghost use Rattle.pfs_check_blank.specs.ReadyStores.{IsReady};

use crate::blank::Blank;
use pfs_admin::{Admin, Placed, Reply, Truncation};
use pfs_exec::{Delete, Insert, Update};
use pfs_levels::Log;
use pfs_names::NameId;

/// A session connects: the log gets its `connect`, and behind it all that the connect may ask for; the store has the
/// words of each info row that it writes.
pub fn ask_connect(
    admin: &mut Admin,
    blank: &mut Blank,
    session: u64,
    user: NameId,
    host: NameId,
    log: &mut Log,
) -> Placed
    requires few { admin.old.actions < 2 ^ 47 }
    requires user { user < length admin.old.names }
    requires host { host < length admin.old.names }
    requires ready { IsReady admin.old.words blank.old }
    requires room { 6 ≤ log.old.room }
    ensures step { admin.new ≡ connected admin.old session user host }
    ensures ready { IsReady admin.new.words blank.new }
    ensures placed { result ≡ placed_of (seat_at admin.old session user host) }
    ensures asked { IsAsked (work_of_connect admin.old session user host) admin.old.words
        (connect_entry (admin.old.actions + 1) (seat_at admin.old session user host) ∷ []) log.old log.new }
    ensures written { AreWritten (work_of_connect admin.old session user host).signs blank.new.contents.items }
{
    crate::laws::asks();
    admin.connect(blank, session, user, host, log)
}

/// A session ends its connection: the log gets all that this may ask for, the store the words of each info row.
pub fn ask_quit(admin: &mut Admin, blank: &mut Blank, session: u64, log: &mut Log)
    requires few { admin.old.actions < 2 ^ 47 }
    requires ready { IsReady admin.old.words blank.old }
    requires room { 253 ≤ log.old.room }
    ensures step { admin.new ≡ has_quit admin.old session }
    ensures ready { IsReady admin.new.words blank.new }
    ensures asked { IsAsked (work_of_quit admin.old session) admin.old.words [] log.old log.new }
    ensures written { AreWritten (work_of_quit admin.old session).signs blank.new.contents.items }
{
    crate::laws::asks();
    admin.quit(blank, session, log);
}

/// A table is truncated: the log gets all that this may ask for, the store the words of each info row.
pub fn ask_truncation(admin: &mut Admin, blank: &mut Blank, what: Truncation, log: &mut Log)
    requires few { admin.old.actions < 2 ^ 47 }
    requires ready { IsReady admin.old.words blank.old }
    requires room { 19202 ≤ log.old.room }
    ensures step { admin.new ≡ has_truncated admin.old what }
    ensures ready { IsReady admin.new.words blank.new }
    ensures asked { IsAsked (work_of_truncation admin.old what) admin.old.words [] log.old log.new }
    ensures written { AreWritten (work_of_truncation admin.old what).signs blank.new.contents.items }
{
    crate::laws::asks();
    // It is asked for the law that comes with it.
    let _ = admin.truncation_cost(what);
    admin.truncate(blank, what, log);
}

/// Rows of a setup table change: the log gets the sets that this may ask for.
pub fn ask_update(admin: &mut Admin, blank: &mut Blank, what: &Update, log: &mut Log) -> Reply
    requires few { admin.old.actions < 2 ^ 47 }
    requires ready { IsReady admin.old.words blank.old }
    requires room { 64 ≤ log.old.room }
    ensures step { admin.new ≡ has_changed admin.old (statements.Update what.now) }
    ensures ready { IsReady admin.new.words blank.new }
    ensures reply { result ≡ reply_to admin.old (statements.Update what.now) }
    ensures asked { IsAsked (work_of_statement admin.old (statements.Update what.now)) admin.old.words [] log.old
        log.new }
{
    crate::laws::asks();
    admin.update(blank, what, log)
}

/// A row is added to a setup table: the log gets the sets that this may ask for.
pub fn ask_insert(admin: &mut Admin, blank: &mut Blank, what: Insert, log: &mut Log) -> Reply
    requires few { admin.old.actions < 2 ^ 47 }
    requires ready { IsReady admin.old.words blank.old }
    requires room { 64 ≤ log.old.room }
    ensures step { admin.new ≡ has_changed admin.old (statements.Insert what) }
    ensures ready { IsReady admin.new.words blank.new }
    ensures reply { result ≡ reply_to admin.old (statements.Insert what) }
    ensures asked { IsAsked (work_of_statement admin.old (statements.Insert what)) admin.old.words [] log.old log.new }
{
    crate::laws::asks();
    admin.insert(blank, what, log)
}

/// Rows of a setup table go: the log gets the sets that this may ask for.
pub fn ask_delete(admin: &mut Admin, blank: &mut Blank, what: &Delete, log: &mut Log) -> Reply
    requires few { admin.old.actions < 2 ^ 47 }
    requires ready { IsReady admin.old.words blank.old }
    requires room { 64 ≤ log.old.room }
    ensures step { admin.new ≡ has_changed admin.old (statements.Delete what.now) }
    ensures ready { IsReady admin.new.words blank.new }
    ensures reply { result ≡ reply_to admin.old (statements.Delete what.now) }
    ensures asked { IsAsked (work_of_statement admin.old (statements.Delete what.now)) admin.old.words [] log.old
        log.new }
{
    crate::laws::asks();
    admin.delete(blank, what, log)
}
