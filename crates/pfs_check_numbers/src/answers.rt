//! What an entry says of its action: where its connect found room, and what it was answered.

ghost use Rattle.std.specs.Prelude.{◌≡◌, slice_get};
ghost use Rattle.pfs_event.specs.declared.entry.Entry.{Entry};
ghost use Rattle.pfs_law_session.specs.Demands.{answer_by, rooms_of};
ghost use Rattle.pfs_model.specs.ActionAsks.{Answer, Failed, IsAnswered, Replied, Rooms, answer_at};
ghost use Rattle.pfs_model.specs.EntryPlaces.{Placed as Place};
ghost use Rattle.pfs_check_numbers.specs.OrderAnswers.{answers_in, order_at, rooms_in, rooms_if, answer_if};
ghost use Rattle.pfs_check_walk.specs.NumberTests.{Tells};

use pfs_admin::{Placed, Reply};
use pfs_check_orders::Order;
use pfs_event::Entry;
use pfs_model::Line;

fn order_before(orders: &[Order], before: u64) -> Option<Order>
    ensures { result ≡ slice_get orders.now before }
{
    orders.get(before as usize).copied()
}

// The order of an action; None where there is no such action.
fn order_at(orders: &[Order], action: u64) -> Option<Order>
    ensures { result ≡ order_at orders.now action }
{
    if action == 0 {
        return None;
    }
    order_before(orders, action - 1)
}

// No places where there is no such action.
fn placed_if(order: Option<Order>) -> Placed
    ensures { rooms_of result ≡ rooms_if order }
{
    match order {
        Some(order) => order.placed,
        None => Placed {
            thread: None,
            account: None,
            user: None,
            host: None,
        },
    }
}

fn reply_if(order: Option<Order>) -> Reply
    ensures { answer_by result ≡ answer_if order }
{
    match order {
        Some(order) => order.reply,
        None => Reply::Changed(0),
    }
}

fn are_same(one: Placed, other: Placed) -> bool
    ensures { Tells (rooms_of one ≡ rooms_of other) result }
{
    one.thread == other.thread
        && one.account == other.account
        && one.user == other.user
        && one.host == other.host
}

fn is_replied(reply: Reply, number: u64) -> bool
    ensures { Tells (answer_by reply ≡ Replied number) result }
{
    match reply {
        Reply::Changed(count) => count == number,
        Reply::Error(_) => false,
    }
}

fn is_failed(reply: Reply, number: u64) -> bool
    ensures { Tells (answer_by reply ≡ Failed number) result }
{
    match reply {
        Reply::Changed(_) => false,
        Reply::Error(error) => u64::from(error) == number,
    }
}

// Whether the answer of a line says that so many rows were changed.
fn says_reply(orders: &[Order], line: &Line, action: u64, number: u64) -> bool
    ensures { Tells (answer_at (answers_in orders.now) line.now action ≡ Replied number) result }
{
    match line {
        Line::Refused { .. } => false,
        _ => is_replied(reply_if(order_at(orders, action)), number),
    }
}

// Whether the answer of a line is this error.
fn says_error(orders: &[Order], line: &Line, action: u64, number: u64) -> bool
    ensures { Tells (answer_at (answers_in orders.now) line.now action ≡ Failed number) result }
{
    match line {
        Line::Refused { error } => *error == number,
        _ => is_failed(reply_if(order_at(orders, action)), number),
    }
}

/// Whether a connect has the places that its action finds, and an answer is that of its line.
pub(crate) fn is_answered(orders: &[Order], line: &Line, action: u64, entry: &Entry) -> bool
    ensures { (place : Place) → place.line ≡ line.now → place.context.action ≡ action
        → Tells (IsAnswered (rooms_in orders.now) (answers_in orders.now) place entry.now) result }
{
    match *entry {
        Entry::Connect {
            action,
            thread,
            account,
            user,
            host,
        } => {
            let found = placed_if(order_at(orders, action));
            are_same(
                found,
                Placed {
                    thread,
                    account,
                    user,
                    host,
                },
            )
        }
        Entry::Reply { number } => says_reply(orders, line, action, number),
        Entry::Error { number } => says_error(orders, line, action, number),
        _ => true,
    }
}
