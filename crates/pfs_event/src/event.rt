//! An event, and the sixteen words in which it lies in a slot.

ghost use Rattle.std.specs.Prelude.{◌≤◌};

use crate::form::{bit, has_form};

/// The numbers of an event, after MySQL's columns but for `link` and `ticket`, which are our own. Times are
/// picoseconds on the session's clock. The class is at most 62, the link at most 64 and the nesting
/// at most 4, so that they lie side by side in a word.
#[derive(Clone, Copy, Debug, PartialEq, Eq)]
pub struct Event {
    /// The number of the session.
    pub session: u64,
    /// The EVENT_ID.
    pub number: u64,
    /// The END_EVENT_ID: the last EVENT_ID drawn when the event ended; 0 before its end.
    pub last: u64,
    /// The id of the class.
    pub class: u64,
    /// One more than the table's number for a wait of a table, one more than the digest's place for
    /// a digested statement that has a place, and 0 otherwise.
    pub link: u64,
    /// The kind of the event that this one lies in: 0 none, 1 transaction, 2 statement, 3 stage,
    /// 4 wait.
    pub nesting: u64,
    /// The EVENT_ID of the event that this one lies in, or 0.
    pub parent: u64,
    /// The clock at the start.
    pub start: u64,
    /// How long it took; 0 before its end.
    pub duration: u64,
    /// A statement's lock time.
    pub lock: u64,
    /// How many errors a statement raised.
    pub errors: u64,
    /// How many warnings a statement raised.
    pub warnings: u64,
    /// How many rows a statement changed.
    pub affected: u64,
    /// How many rows a statement sent.
    pub sent: u64,
    /// How many rows a statement examined.
    pub examined: u64,
    /// One more than the ticket in the long history, and 0 elsewhere.
    pub ticket: u64,
    /// Whether its time counts.
    pub timed: bool,
    /// Whether it is a READ ONLY transaction.
    pub read_only: bool,
    pub ghost class_fits: { class ≤ 62 },
    pub ghost link_fits: { link ≤ 64 },
    pub ghost nesting_fits: { nesting ≤ 4 },
}

impl Event {
    ghost use Rattle.std.specs.Prelude.{◌≡◌, ◌≢◌, MatchOption};
    ghost use Rattle.pfs_event.specs.declared.event.Event.{Event};
    ghost use Rattle.pfs_event.specs.EventWords.{words_of};

    /// The event's sixteen words. Word 3 is the class and 64 times the link, word 4 is 1 for timed,
    /// 2 for READ ONLY and 4 times the nesting, and word 5 is 0. The layout is our own.
    pub fn to_words(&self) -> [u64; 16]
        ensures { result ≡ words_of self.now }
    {
        [
            self.session,
            self.number,
            self.last,
            self.class + 64 * self.link,
            bit(self.timed) + 2 * bit(self.read_only) + 4 * self.nesting,
            0,
            self.parent,
            self.start,
            self.duration,
            self.lock,
            self.errors,
            self.warnings,
            self.affected,
            self.sent,
            self.examined,
            self.ticket,
        ]
    }

    /// The event with these words, or None exactly where no event has them: the class would be over
    /// 62, the link over 64, the nesting over 4, or word 5 isn't 0.
    pub fn of_words(words: &[u64; 16]) -> Option<Event>
        ensures { MatchOption result ((e : Event) → words_of e ≢ words.now) (λ e. words_of e ≡ words.now) }
    {
        if !has_form(words) {
            return None;
        }
        Some(Event {
            session: words[0],
            number: words[1],
            last: words[2],
            class: words[3] % 64,
            link: words[3] / 64,
            nesting: words[4] / 4,
            parent: words[6],
            start: words[7],
            duration: words[8],
            lock: words[9],
            errors: words[10],
            warnings: words[11],
            affected: words[12],
            sent: words[13],
            examined: words[14],
            ticket: words[15],
            timed: words[4] % 2 == 1,
            read_only: words[4] / 2 % 2 == 1,
        })
    }
}
