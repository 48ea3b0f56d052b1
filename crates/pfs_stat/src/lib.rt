//! The numbers of a summary row: how many events it has counted, and the sum, least and greatest of
//! what they measured. Rows are put together by `merge`, which is a commutative monoid.
#![tactic(auto)]

pub mod laws;
#[cfg(test)]
mod tests;

ghost use Rattle.std.specs.Prelude.{◌≡◌, ◌/◌, ◌==◌, ◌≤◌, ◌↔◌, IsTrue, if◌then◌else◌, length};
ghost use Rattle.pfs_stat.specs.Stat.{Fits, zero_of, stat_of, merge_of, words_of, stat_of_words};

/// The numbers of one summary row. Times are picoseconds. Sums are modulo 2^64, a rule of our own.
#[derive(Clone, Copy, Debug, PartialEq, Eq)]
pub struct Stat {
    /// How many events were counted, timed or not.
    pub count: u64,
    /// The sum of the timed events' waits, in picoseconds.
    pub sum: u64,
    /// The least wait of a timed event, in picoseconds; 2^64 - 1 where none was timed.
    pub min: u64,
    /// The greatest wait of a timed event, in picoseconds; 0 where none was timed.
    pub max: u64,
    /// The sum of the statements' lock times, in picoseconds.
    pub lock: u64,
    /// How many errors the statements raised.
    pub errors: u64,
    /// How many warnings the statements raised.
    pub warnings: u64,
    /// How many rows the statements changed.
    pub affected: u64,
    /// How many rows the statements sent.
    pub sent: u64,
    /// How many rows the statements examined.
    pub examined: u64,
}

/// What one ended event measured. The six numbers after `wait` are a statement's, and 0 otherwise.
#[derive(Clone, Copy, Debug, PartialEq, Eq)]
pub struct Measure {
    /// Whether the event's time counts, which the setup decides at its start.
    pub timed: bool,
    /// How long the event took, in picoseconds.
    pub wait: u64,
    /// The statement's lock time, in picoseconds.
    pub lock: u64,
    /// How many errors the statement raised.
    pub errors: u64,
    /// How many warnings the statement raised.
    pub warnings: u64,
    /// How many rows the statement changed.
    pub affected: u64,
    /// How many rows the statement sent.
    pub sent: u64,
    /// How many rows the statement examined.
    pub examined: u64,
}

/// The numbers of a row that has counted nothing: 0 everywhere, and the least is 2^64 - 1.
pub fn zero() -> Stat
    ensures { result ≡ zero_of }
{
    Stat {
        count: 0,
        sum: 0,
        min: u64::MAX,
        max: 0,
        lock: 0,
        errors: 0,
        warnings: 0,
        affected: 0,
        sent: 0,
        examined: 0,
    }
}

/// The numbers of a row that has counted this event alone. An untimed event adds one to the count
/// and nothing to sum, least and greatest, as in MySQL.
pub fn of_event(measure: &Measure) -> Stat
    ensures { result ≡ stat_of measure.now }
{
    let none = zero();
    let wait = measure.wait;
    Stat {
        count: 1,
        sum: if measure.timed { wait } else { none.sum },
        min: if measure.timed { wait } else { none.min },
        max: if measure.timed { wait } else { none.max },
        lock: measure.lock,
        errors: measure.errors,
        warnings: measure.warnings,
        affected: measure.affected,
        sent: measure.sent,
        examined: measure.examined,
    }
}

impl Stat {
    /// Both rows' events in one row: sums modulo 2^64, the lesser least and the greater greatest.
    pub fn merge(self, other: Stat) -> Stat
        ensures { result ≡ merge_of self other }
    {
        Stat {
            count: self.count.wrapping_add(other.count),
            sum: self.sum.wrapping_add(other.sum),
            min: self.min.min(other.min),
            max: self.max.max(other.max),
            lock: self.lock.wrapping_add(other.lock),
            errors: self.errors.wrapping_add(other.errors),
            warnings: self.warnings.wrapping_add(other.warnings),
            affected: self.affected.wrapping_add(other.affected),
            sent: self.sent.wrapping_add(other.sent),
            examined: self.examined.wrapping_add(other.examined),
        }
    }

    /// Tells a proof that each number of a row in hand is below 2^64. Does nothing.
    pub fn tell(&self)
        ensures { Fits self.now }
    {
        self.told();
    }

    fn told(self)
        ensures { Fits self }
    {}

    /// Whether a timed event was counted: the least is at most the greatest.
    pub fn is_timed(&self) -> bool
        ensures { IsTrue result ↔ (self.now.min ≤ self.now.max) }
    {
        self.min <= self.max
    }

    /// The sum divided by the count, rounded down, in picoseconds; 0 where nothing was counted.
    pub fn avg(&self) -> u64
        ensures { result ≡ (if self.now.count == 0 then 0 else self.now.sum / self.now.count) }
    {
        if self.count == 0 {
            0
        } else {
            self.sum / self.count
        }
    }

    /// The sixteen words of a summary slot: the ten numbers in their order, then 0.
    pub fn to_words(&self) -> [u64; 16]
        ensures { result ≡ words_of self.now }
    {
        [
            self.count,
            self.sum,
            self.min,
            self.max,
            self.lock,
            self.errors,
            self.warnings,
            self.affected,
            self.sent,
            self.examined,
            0,
            0,
            0,
            0,
            0,
            0,
        ]
    }

    /// The numbers in the first ten of a slot's words. The other six are not looked at.
    pub fn of_words(words: &[u64; 16]) -> Stat
        ensures { result ≡ stat_of_words words.now }
    {
        Stat {
            count: words[0],
            sum: words[1],
            min: words[2],
            max: words[3],
            lock: words[4],
            errors: words[5],
            warnings: words[6],
            affected: words[7],
            sent: words[8],
            examined: words[9],
        }
    }
}
