//! An action of the administration, and what is kept of it.

ghost use Rattle.std.specs.Prelude.{◌≡◌, ◌<◌, ◌≤◌, ◌^◌, [], length, IfOk, OnOk};
ghost use Rattle.pfs_admin.specs.Fold.{stepped};
ghost use Rattle.pfs_admin.specs.SetupStatements.{has_changed, reply_to, work_of_statement};
ghost use Rattle.pfs_admin.specs.declared.changes.Change.TheVariants as changes;
ghost use Rattle.pfs_admin.specs.declared.changes.SetupStatement.TheVariants as statements;
ghost use Rattle.pfs_law_session.specs.Demands.{rooms_of};
ghost use Rattle.pfs_law_session.specs.Orders.{no_rooms};
ghost use Rattle.pfs_check_blank.specs.AllAsked.{AreWritten, IsAsked};
ghost use Rattle.pfs_runs.specs.Labels.{work_for};
ghost use Rattle.pfs_check_blank.specs.ReadyStores.{IsReady};
ghost use Rattle.pfs_check_orders.specs.ActionOrders.{IsNamed, IsNext};

use crate::NoMemory;
use crate::copies::copy_insert;
use crate::orders::Order;
use pfs_admin::{Admin, Change, Placed, Reply, SetupStatement, Truncation};
use pfs_check_blank::{
    Blank, ask_connect, ask_delete, ask_insert, ask_quit, ask_truncation, ask_update,
};
use pfs_containers::Lost;
use pfs_levels::Log;
use pfs_names::NameId;

fn nowhere() -> Placed
    ensures { rooms_of result ≡ no_rooms }
{
    Placed {
        thread: None,
        account: None,
        user: None,
        host: None,
    }
}

// An action without places, whose entries begin there.
fn order_from(start: usize, log: &Log, reply: Reply, lost: Lost) -> Order
    ensures start { result.start ≡ start }
    ensures end { result.end ≡ length log.now.entries }
    ensures placed { rooms_of result.placed ≡ no_rooms }
    ensures reply { result.reply ≡ reply }
    ensures lost { result.lost ≡ lost }
{
    Order {
        start,
        end: log.count(),
        first_info: 0,
        end_info: 0,
        held: 0,
        placed: nowhere(),
        reply,
        lost,
    }
}

fn connect(
    admin: &mut Admin,
    blank: &mut Blank,
    log: &mut Log,
    session: u64,
    user: NameId,
    host: NameId,
) -> Order
    requires few { admin.old.actions < 2 ^ 47 }
    requires named { IsNamed admin.old.names (changes.Connect user host) }
    requires ready { IsReady admin.old.words blank.old }
    requires room { 6 ≤ log.old.room }
    ensures step { admin.new ≡ stepped admin.old session (changes.Connect user host) }
    ensures ready { IsReady admin.new.words blank.new }
    ensures next { IsNext admin.old session (changes.Connect user host) log.old.entries log.new.entries result }
    ensures written { AreWritten (work_for admin.old session (changes.Connect user host)).signs blank.new.contents.items }
{
    let start = log.count() + 1;
    let placed = ask_connect(admin, blank, session, user, host, log);
    let lost = admin.lost();
    Order {
        start,
        end: log.count(),
        first_info: 0,
        end_info: 0,
        held: 0,
        placed,
        reply: Reply::Changed(0),
        lost,
    }
}

fn quit(admin: &mut Admin, blank: &mut Blank, log: &mut Log, session: u64) -> Order
    requires few { admin.old.actions < 2 ^ 47 }
    requires ready { IsReady admin.old.words blank.old }
    requires room { 253 ≤ log.old.room }
    ensures step { admin.new ≡ stepped admin.old session changes.Quit }
    ensures ready { IsReady admin.new.words blank.new }
    ensures next { IsNext admin.old session changes.Quit log.old.entries log.new.entries result }
    ensures written { AreWritten (work_for admin.old session changes.Quit).signs blank.new.contents.items }
{
    let start = log.count();
    ask_quit(admin, blank, session, log);
    let lost = admin.lost();
    order_from(start, log, Reply::Changed(0), lost)
}

fn truncate(
    admin: &mut Admin,
    blank: &mut Blank,
    log: &mut Log,
    session: u64,
    what: Truncation,
) -> Order
    requires few { admin.old.actions < 2 ^ 47 }
    requires ready { IsReady admin.old.words blank.old }
    requires room { 19202 ≤ log.old.room }
    ensures step { admin.new ≡ stepped admin.old session (changes.Truncate what) }
    ensures ready { IsReady admin.new.words blank.new }
    ensures next { IsNext admin.old session (changes.Truncate what) log.old.entries log.new.entries result }
    ensures written { AreWritten (work_for admin.old session (changes.Truncate what)).signs blank.new.contents.items }
{
    let _ = session;
    let start = log.count();
    ask_truncation(admin, blank, what, log);
    let lost = admin.lost();
    order_from(start, log, Reply::Changed(0), lost)
}

// What a statement on the setup tables is answered. Err where memory runs out for a copy of a new row.
fn reply_to(
    admin: &mut Admin,
    blank: &mut Blank,
    log: &mut Log,
    what: &SetupStatement,
) -> Result<Reply, NoMemory>
    requires few { admin.old.actions < 2 ^ 47 }
    requires ready { IsReady admin.old.words blank.old }
    requires room { 64 ≤ log.old.room }
    ensures step { OnOk result (admin.new ≡ has_changed admin.old what.now) }
    ensures ready { OnOk result (IsReady admin.new.words blank.new) }
    ensures reply { IfOk result (λ reply. reply ≡ reply_to admin.old what.now) }
    ensures asked { OnOk result (IsAsked (work_of_statement admin.old what.now) admin.old.words [] log.old log.new) }
{
    match what {
        SetupStatement::Update(update) => Ok(ask_update(admin, blank, update, log)),
        SetupStatement::Insert(insert) => {
            let insert = copy_insert(insert)?;
            Ok(ask_insert(admin, blank, insert, log))
        }
        SetupStatement::Delete(delete) => Ok(ask_delete(admin, blank, delete, log)),
        SetupStatement::Show => {
            admin.note();
            Ok(Reply::Changed(0))
        }
    }
}

fn change(
    admin: &mut Admin,
    blank: &mut Blank,
    log: &mut Log,
    session: u64,
    what: &SetupStatement,
) -> Result<Order, NoMemory>
    requires few { admin.old.actions < 2 ^ 47 }
    requires ready { IsReady admin.old.words blank.old }
    requires room { 64 ≤ log.old.room }
    ensures step { OnOk result (admin.new ≡ stepped admin.old session (changes.Setup what.now)) }
    ensures ready { OnOk result (IsReady admin.new.words blank.new) }
    ensures next { IfOk result (IsNext admin.old session (changes.Setup what.now) log.old.entries log.new.entries) }
{
    let _ = session;
    let start = log.count();
    let reply = reply_to(admin, blank, log, what)?;
    let lost = admin.lost();
    Ok(order_from(start, log, reply, lost))
}

/// An action of a session in the administration: the log gets all that it may ask for, the store the words of the info
/// rows that it writes; none are named in the order. Err where memory runs out for a copy of a new row.
pub(crate) fn ask(
    admin: &mut Admin,
    blank: &mut Blank,
    log: &mut Log,
    session: u64,
    what: &Change,
) -> Result<Order, NoMemory>
    requires few { admin.old.actions < 2 ^ 47 }
    requires named { IsNamed admin.old.names what.now }
    requires ready { IsReady admin.old.words blank.old }
    requires room { 19202 ≤ log.old.room }
    ensures step { OnOk result (admin.new ≡ stepped admin.old session what.now) }
    ensures ready { OnOk result (IsReady admin.new.words blank.new) }
    ensures next { IfOk result (IsNext admin.old session what.now log.old.entries log.new.entries) }
    ensures written { OnOk result (AreWritten (work_for admin.old session what.now).signs blank.new.contents.items) }
{
    match what {
        Change::Connect { user, host } => { Ok(connect(admin, blank, log, session, *user, *host)) }
        Change::Quit => Ok(quit(admin, blank, log, session)),
        Change::Truncate(what) => Ok(truncate(admin, blank, log, session, *what)),
        Change::Setup(what) => change(admin, blank, log, session, what),
    }
}
