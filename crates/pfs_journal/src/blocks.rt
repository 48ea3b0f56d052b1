//! What is reported of a block of a phase: the session's journal, and the answers of its SELECTs.

ghost use Rattle.std.specs.Prelude.{◌≡◌, ◌<◌, length, slice_get, Some};

use pfs_event::{Entry, Log};
use pfs_text::Rowset;
use std::marker::Model;

/// The entries of a journal, in order.
#[derive(Drop)]
pub struct EntryList {
    log: Log,
}

impl Model for EntryList {
    ghost use Rattle.std.specs.Prelude.{List};
    ghost use Rattle.pfs_event.specs.declared.entry.Entry.{Entry};

    ghost Value = { List Entry };

    ghost view = { λ list. list.log.entries };
}

impl EntryList {
    /// The list of the entries of a log. It takes no memory.
    pub fn new(log: Log) -> EntryList
        ensures { result ≡ log.entries }
    {
        EntryList { log }
    }

    /// How many entries there are.
    pub fn count(&self) -> usize
        ensures { result ≡ length self.now }
    {
        self.log.count()
    }

    /// The entry at a place.
    #[inline(always)]
    pub fn entry(&self, place: usize) -> Entry
        requires { place < length self.now }
        ensures { slice_get self.now place ≡ Some result }
    {
        self.log.entry(place)
    }
}

/// The answers of SELECTs, in order.
#[derive(Drop)]
pub struct AnswerList {
    items: Vec<Rowset>,
}

impl Model for AnswerList {
    ghost use Rattle.std.specs.Prelude.{List};
    ghost use Rattle.pfs_text.specs.declared.values.RowValue.{RowValue};

    ghost Value = { List (List (List RowValue)) };

    ghost view = { λ list. list.items.items };
}

impl AnswerList {
    /// The list of these answers. It takes no memory.
    pub fn new(items: Vec<Rowset>) -> AnswerList
        ensures { result ≡ items.items }
    {
        AnswerList { items }
    }

    /// The answers, in order.
    pub fn as_slice(&self) -> &[Rowset]
        ensures { result.now ≡ self.now }
    {
        self.items.as_slice()
    }

    /// The answers, given back without taking memory.
    pub fn into_vec(self) -> Vec<Rowset>
        ensures { result.items ≡ self }
    {
        self.items
    }
}

/// What one session did in a phase.
#[derive(Drop)]
pub struct BlockReport {
    /// The session's number K.
    pub session: u64,
    /// Its journal, in order.
    pub entries: EntryList,
    /// The rows of its answers: for each entry `Rows` of the journal, in their order, so many rows
    /// as that entry says.
    pub answers: AnswerList,
}

/// What is reported of a phase's blocks, in their order.
#[derive(Drop)]
pub struct BlockList {
    items: Vec<BlockReport>,
}

impl Model for BlockList {
    ghost use Rattle.std.specs.Prelude.{List};
    ghost use Rattle.pfs_journal.specs.declared.blocks.BlockReport.{BlockReport};

    ghost Value = { List BlockReport };

    ghost view = { λ list. list.items.items };
}

impl BlockList {
    /// The list of these blocks. It takes no memory.
    pub fn new(items: Vec<BlockReport>) -> BlockList
        ensures { result ≡ items.items }
    {
        BlockList { items }
    }

    /// The blocks, in order.
    pub fn as_slice(&self) -> &[BlockReport]
        ensures { result.now ≡ self.now }
    {
        self.items.as_slice()
    }

    /// The blocks, given back without taking memory.
    pub fn into_vec(self) -> Vec<BlockReport>
        ensures { result.items ≡ self }
    {
        self.items
    }
}
