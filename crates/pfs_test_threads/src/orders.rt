//! A gate that holds a session's line until another session has come so far.

use pfs_top::Gate;
use std::sync::Wait;
use std::sync::atomic::{AtomicU64, Ordering};
use std::thread::yield_now;

/// How often a session looks for the other before it goes on without it.
const TURNS: u64 = 10_000_000;

/// A line of a session's block.
#[derive(Clone, Copy, PartialEq)]
struct Place {
    session: u64,
    line: u64,
}

/// A line that is held until another one was asked for.
#[derive(Drop)]
pub(crate) struct Order {
    first: Place,
    held: Place,
    /// How often the first was asked for.
    came: AtomicU64,
    /// How often the held one went on behind the first.
    met: AtomicU64,
}

impl Order {
    /// The line of a session that is held until a line of another session was asked for, each as session and line.
    pub(crate) fn new(held: (u64, u64), first: (u64, u64)) -> Order {
        Order {
            first: Place {
                session: first.0,
                line: first.1,
            },
            held: Place {
                session: held.0,
                line: held.1,
            },
            came: AtomicU64::new(0),
            met: AtomicU64::new(0),
        }
    }

    /// Waits until the first was asked for.
    fn wait(&self) {
        for _ in 0..TURNS {
            if self.came.load(Ordering::SeqCst) > 0 {
                self.met.fetch_add(1, Ordering::SeqCst);
                return;
            }
            yield_now();
        }
    }

    /// Whether the held line went on behind the first one, once.
    fn is_kept(&self) -> bool {
        self.met.load(Ordering::SeqCst) == 1
    }
}

/// A gate that keeps orders.
#[derive(Drop)]
pub(crate) struct Orders<'a> {
    pub(crate) orders: &'a [Order],
}

impl Orders<'_> {
    /// A session has come to this place.
    fn note(&self, place: Place) {
        for order in self.orders {
            if place == order.first {
                order.came.fetch_add(1, Ordering::SeqCst);
            }
        }
    }

    /// It waits there for whatever holds it.
    fn hold(&self, place: Place) {
        for order in self.orders {
            if place == order.held {
                order.wait();
            }
        }
    }

    /// Whether each held line went on behind its first one, once.
    pub(crate) fn are_kept(&self) -> bool {
        self.orders.iter().all(|order| order.is_kept())
    }
}

impl Gate for Orders<'_> {
    fn pass<R: Wait>(&self, rt: &R, session: u64, line: u64) {
        let _ = rt;
        let place = Place { session, line };
        self.note(place);
        self.hold(place);
    }
}
