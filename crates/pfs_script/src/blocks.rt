//! A script as its phases, their blocks, and what the lines of a block say to its session.

ghost use Rattle.std.specs.Prelude.{◌≡◌};

use pfs_classes::ClassRef;
use pfs_names::NameId;
use pfs_text::Text;
use std::marker::Model;

/// How a transaction uses the data.
#[derive(Clone, Copy, Debug, PartialEq, Eq)]
pub enum Access {
    /// `rw`: READ WRITE.
    ReadWrite,
    /// `ro`: READ ONLY.
    ReadOnly,
}

/// What a statement's end tells of it, after MySQL's columns.
#[derive(Clone, Copy, Debug, PartialEq, Eq)]
pub struct StatementNumbers {
    /// The lock time in picoseconds.
    pub lock: u64,
    pub errors: u64,
    pub warnings: u64,
    /// How many rows it changed.
    pub affected: u64,
    /// How many rows it sent.
    pub sent: u64,
    /// How many rows it examined.
    pub examined: u64,
}

/// A line of a block. Lines that say nothing are not kept.
#[derive(Debug, PartialEq, Eq, Drop)]
pub enum BlockLine {
    /// Starts a wait of a class, or of a lost one.
    Wait(ClassRef),
    /// Starts a wait on a table, by the table's number in the setting.
    TableWait {
        class: ClassRef,
        table: u64,
    },
    /// Starts a statement of a class, or of a lost one, with the place of its digest text in the setting;
    /// None where the text has no place.
    Statement {
        class: ClassRef,
        digest: Option<u64>,
    },
    /// Starts a transaction.
    Transaction(Access),
    /// Ends the open stage, if any, and starts one of a class, or of a lost one.
    Stage(ClassRef),
    /// Ends the open stage.
    StageEnd,
    /// Moves the session's clock by so many picoseconds.
    Spend(u64),
    /// Ends the innermost event, and its statement too where that is a stage.
    End,
    /// The same for a statement, with its numbers.
    EndStatement(StatementNumbers),
    /// One SQL command, as it stands on the line.
    Sql(Text),
    /// Ends the session.
    Quit,
    /// The lines up to the next `Done` run so many times.
    Repeat(u64),
    /// Ends the lines of a repeat.
    Done,
}

/// The lines of a block, in order.
#[derive(Drop)]
pub struct BlockLineList {
    items: Vec<BlockLine>,
}

impl Model for BlockLineList {
    ghost use Rattle.std.specs.Prelude.{List};
    ghost use Rattle.pfs_script.specs.declared.blocks.BlockLine.{BlockLine};

    ghost Value = { List BlockLine };

    ghost view = { λ list. list.items.items };
}

impl BlockLineList {
    /// The list of these lines. It takes no memory.
    pub fn new(items: Vec<BlockLine>) -> BlockLineList
        ensures { result ≡ items.items }
    {
        BlockLineList { items }
    }

    /// The lines, in order.
    pub fn as_slice(&self) -> &[BlockLine]
        ensures { result.now ≡ self.now }
    {
        self.items.as_slice()
    }
}

/// Whose session it is: the names that its first block gives, by their ids in the setting.
#[derive(Clone, Copy, Debug, PartialEq, Eq)]
pub struct Connect {
    pub user: NameId,
    pub host: NameId,
}

/// A block: what one session does in a phase.
#[derive(Drop)]
pub struct Block {
    /// The session's number K, from 1 to 64.
    pub session: u64,
    /// The session's names, at its first block alone, which connects it.
    pub connect: Option<Connect>,
    /// What its lines say, in order.
    pub lines: BlockLineList,
}

/// The blocks of a phase, in order.
#[derive(Drop)]
pub struct BlockList {
    items: Vec<Block>,
}

impl Model for BlockList {
    ghost use Rattle.std.specs.Prelude.{List};
    ghost use Rattle.pfs_script.specs.declared.blocks.Block.{Block};

    ghost Value = { List Block };

    ghost view = { λ list. list.items.items };
}

impl BlockList {
    /// The list of these blocks. It takes no memory.
    pub fn new(items: Vec<Block>) -> BlockList
        ensures { result ≡ items.items }
    {
        BlockList { items }
    }

    /// The blocks, in order.
    pub fn as_slice(&self) -> &[Block]
        ensures { result.now ≡ self.now }
    {
        self.items.as_slice()
    }
}

/// A phase of a script.
#[derive(Drop)]
pub struct Phase {
    /// Its blocks, in order.
    pub blocks: BlockList,
}

/// The phases of a script, in order.
#[derive(Drop)]
pub struct PhaseList {
    items: Vec<Phase>,
}

impl Model for PhaseList {
    ghost use Rattle.std.specs.Prelude.{List};
    ghost use Rattle.pfs_script.specs.declared.blocks.Phase.{Phase};

    ghost Value = { List Phase };

    ghost view = { λ list. list.items.items };
}

impl PhaseList {
    /// The list of these phases. It takes no memory.
    pub fn new(items: Vec<Phase>) -> PhaseList
        ensures { result ≡ items.items }
    {
        PhaseList { items }
    }

    /// The phases, in order.
    pub fn as_slice(&self) -> &[Phase]
        ensures { result.now ≡ self.now }
    {
        self.items.as_slice()
    }
}
