//! The fifteen consumers of the recording engine, their flags and their tree.
#![tactic(auto)]

pub mod laws;

ghost use Rattle.std.specs.Prelude.{◌≡◌, ◌≢◌, ◌↔◌, ◌<◌, IsTrue, MatchOption, slice_get, Some};
ghost use Rattle.std.specs.Int.{bit_at};
ghost use Rattle.pfs_consumers.specs.declared.Consumer.{Consumer};
ghost use Rattle.pfs_consumers.specs.Tree.{bit_of, is_on, with_flag, name_of, parent_of, Acts, acts_of};

/// A consumer, in the order of the flags' bits from bit 0. The names are MySQL's.
#[derive(Clone, Copy, Debug, PartialEq, Eq)]
pub enum Consumer {
    StagesCurrent,
    StagesHistory,
    StagesHistoryLong,
    StatementsCurrent,
    StatementsHistory,
    StatementsHistoryLong,
    TransactionsCurrent,
    TransactionsHistory,
    TransactionsHistoryLong,
    WaitsCurrent,
    WaitsHistory,
    WaitsHistoryLong,
    GlobalInstrumentation,
    ThreadInstrumentation,
    StatementsDigest,
}

/// The flags of a consumer word, one bit for each consumer, 1 for YES. Bit 15 belongs to none.
#[derive(Clone, Copy, Debug, PartialEq, Eq)]
pub struct Flags(pub u16);

impl Consumer {
    /// All consumers, each at the place of its bit.
    pub const ALL: [Consumer; 15] = [
        Consumer::StagesCurrent,
        Consumer::StagesHistory,
        Consumer::StagesHistoryLong,
        Consumer::StatementsCurrent,
        Consumer::StatementsHistory,
        Consumer::StatementsHistoryLong,
        Consumer::TransactionsCurrent,
        Consumer::TransactionsHistory,
        Consumer::TransactionsHistoryLong,
        Consumer::WaitsCurrent,
        Consumer::WaitsHistory,
        Consumer::WaitsHistoryLong,
        Consumer::GlobalInstrumentation,
        Consumer::ThreadInstrumentation,
        Consumer::StatementsDigest,
    ];

    /// The place of the consumer's flag in a word, from 0.
    pub fn bit(self) -> u32
        ensures { result ≡ bit_of self }
    {
        self as u32
    }

    /// The consumer right above this one, by MySQL's hierarchy; none above
    /// `global_instrumentation`.
    pub fn parent(self) -> Option<Consumer>
        ensures { result ≡ parent_of self }
    {
        match self {
            Consumer::GlobalInstrumentation => None,
            Consumer::ThreadInstrumentation | Consumer::StatementsDigest => {
                Some(Consumer::GlobalInstrumentation)
            }
            Consumer::StagesCurrent
            | Consumer::StatementsCurrent
            | Consumer::TransactionsCurrent
            | Consumer::WaitsCurrent => Some(Consumer::ThreadInstrumentation),
            Consumer::StagesHistory | Consumer::StagesHistoryLong => Some(Consumer::StagesCurrent),
            Consumer::StatementsHistory | Consumer::StatementsHistoryLong => {
                Some(Consumer::StatementsCurrent)
            }
            Consumer::TransactionsHistory | Consumer::TransactionsHistoryLong => {
                Some(Consumer::TransactionsCurrent)
            }
            Consumer::WaitsHistory | Consumer::WaitsHistoryLong => Some(Consumer::WaitsCurrent),
        }
    }

    /// The consumer's name in the table of consumers, MySQL's own.
    pub fn name(self) -> &'static str
        ensures { result.now ≡ name_of self }
    {
        match self {
            Consumer::StagesCurrent => "events_stages_current",
            Consumer::StagesHistory => "events_stages_history",
            Consumer::StagesHistoryLong => "events_stages_history_long",
            Consumer::StatementsCurrent => "events_statements_current",
            Consumer::StatementsHistory => "events_statements_history",
            Consumer::StatementsHistoryLong => "events_statements_history_long",
            Consumer::TransactionsCurrent => "events_transactions_current",
            Consumer::TransactionsHistory => "events_transactions_history",
            Consumer::TransactionsHistoryLong => "events_transactions_history_long",
            Consumer::WaitsCurrent => "events_waits_current",
            Consumer::WaitsHistory => "events_waits_history",
            Consumer::WaitsHistoryLong => "events_waits_history_long",
            Consumer::GlobalInstrumentation => "global_instrumentation",
            Consumer::ThreadInstrumentation => "thread_instrumentation",
            Consumer::StatementsDigest => "statements_digest",
        }
    }

    /// The consumer of that name, compared byte by byte; none where no consumer has it.
    pub fn find(name: &[u8]) -> Option<Consumer>
        ensures { MatchOption result ((c : Consumer) → name_of c ≢ name.now) (λ c. name_of c ≡ name.now) }
    {
        for c in Consumer::ALL {
            if c.name().as_bytes() == name {
                return Some(c);
            }
        }
        None
    }
}

impl Flags {
    /// The flags at first: the current and history consumers of statements and transactions, both
    /// instrumentations and the digest are YES, as MySQL has them.
    pub const OPENING: Flags = Flags(28_888);

    /// Whether the consumer's own flag is YES, whatever stands above it.
    pub fn get(self, c: Consumer) -> bool
        ensures { result ≡ is_on self.0 c }
    {
        (self.0 >> c.bit()) & 1 == 1
    }

    /// Sets the flag of one consumer, and leaves every other bit.
    #[tactic(auto, using(crate::proofs::Bits::after_set))]
    pub fn set(&mut self, c: Consumer, on: bool)
        ensures value { self.new.0 ≡ with_flag self.old.0 c on }
        ensures changed { is_on self.new.0 c ≡ on }
        ensures others { (d : Consumer) → d ≢ c → is_on self.new.0 d ≡ is_on self.old.0 d }
        ensures last_bit { bit_at self.new.0 15 ≡ bit_at self.old.0 15 }
    {
        self.0 = word_with(self.0, c, on);
    }
}

// The word with one consumer's flag as given.
fn word_with(word: u16, c: Consumer, on: bool) -> u16
    ensures { result ≡ with_flag word c on }
{
    let mask = 1 << c.bit();
    if on { word | mask } else { word & !mask }
}

/// Whether a consumer acts: it and all that stand over it are YES.
pub fn acts(flags: Flags, c: Consumer) -> bool
    ensures value { result ≡ acts_of flags.0 c }
    ensures all_above { IsTrue result ↔ Acts flags.0 c }
{
    flags.get(c)
        && match c.parent() {
            Some(above) => acts(flags, above),
            None => true,
        }
}
