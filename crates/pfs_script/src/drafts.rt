//! The phases and blocks of a script while it is read.

ghost use Rattle.std.specs.Prelude.{◌≡◌, IfOk, OnOk, List, ◌∷◌, ◌++◌, [], false, None, ℕ, map};
ghost use Rattle.pfs_script.specs.declared.forms.Form.{Form};
ghost use Rattle.pfs_script.specs.declared.forms.Form.TheVariants as form;
ghost use Rattle.pfs_script.specs.Blocks.{Sense, with_front, block_line, phases_of};
ghost use Rattle.pfs_script.specs.SessionNames.{with_session};
ghost use Rattle.std.specs.List.{fold};
ghost use Rattle.pfs_script.specs.Drafts.{owner_named, block_named, phase_named, front_of, blocks_at_hand, with_owner, phases_behind};

use crate::blocks::{Block, BlockLine, BlockLineList, BlockList, Connect, Phase, PhaseList};
use crate::forms::Form;
use crate::heading::Heading;
use pfs_classes::NoMemory;
use std::alloc::Global;
use std::mem;

/// Whose session it is, by the names that its first block gives.
#[derive(Clone, Copy)]
pub struct Owner<'a> {
    pub user: &'a str,
    pub host: &'a str,
}

/// What a block's first line says: its session, and at the session's first block its owner.
#[derive(Clone, Copy)]
pub struct BlockFront<'a> {
    pub session: u64,
    pub owner: Option<Owner<'a>>,
}

/// A block whose names have no ids yet.
#[derive(Drop)]
pub struct BlockDraft<'a> {
    pub front: BlockFront<'a>,
    pub lines: Vec<BlockLine>,
}

/// A phase of such blocks.
#[derive(Drop)]
pub struct PhaseDraft<'a> {
    pub blocks: Vec<BlockDraft<'a>>,
}

/// What the lines so far make: whole phases, and the phase and the block in which the next line stands.
#[derive(Drop)]
pub struct Drafts<'a> {
    pub phases: Vec<PhaseDraft<'a>>,
    /// Whether a phase is at hand.
    pub has_phase: bool,
    /// Its whole blocks.
    pub blocks: Vec<BlockDraft<'a>>,
    /// The block at hand.
    pub front: Option<BlockFront<'a>>,
    /// The lines of that block.
    pub lines: Vec<BlockLine>,
    /// The owners of all sessions, in the order of their first blocks.
    pub owners: Vec<Owner<'a>>,
}

impl<'a> Drafts<'a> {
    /// No phase. It takes no memory.
    pub fn none(alloc: Global) -> Drafts<'a>
        ensures phases { (sense : Sense) (lines : List Form) → phases_of sense lines ≡ phases_behind sense result lines }
        ensures owners { result.owners.items ≡ [] }
    {
        Drafts {
            phases: Vec::new(alloc),
            has_phase: false,
            blocks: Vec::new(alloc),
            front: None,
            lines: Vec::new(alloc),
            owners: Vec::new(alloc),
        }
    }

    /// Takes one more line, which says this to the session of its block.
    pub fn pass(&mut self, line: &Form<'a>, said: Option<BlockLine>) -> Result<(), NoMemory>
        ensures phases { OnOk result ((sense : Sense) (lines : List Form) → said ≡ block_line sense line.now
            → phases_behind sense self.old (line.now ∷ lines) ≡ phases_behind sense self.new lines) }
        ensures owners { OnOk result ((names : List (List ℕ)) → fold with_owner names self.new.owners.items
            ≡ with_session (fold with_owner names self.old.owners.items) line.now) }
    {
        match line {
            Form::Phase => self.begin_phase(),
            Form::Connect {
                session,
                user,
                host,
            } => {
                let owner = Owner {
                    user: user.as_str(),
                    host: host.as_str(),
                };
                self.owners.push(owner)?;
                self.begin_block(*session, Some(owner))
            }
            Form::Resume { session } => self.begin_block(*session, None),
            _ => self.add(said),
        }
    }

    /// The phases of all lines, whose names have these ids.
    pub fn into_phases(self, alloc: Global, heading: &Heading) -> Result<PhaseList, NoMemory>
        ensures { IfOk result (λ phases. (sense : Sense) → heading.now.names ≡ sense.names
            → phases ≡ phases_behind sense self.entry []) }
    {
        let mut whole = self;
        whole.end_phase()?;
        name_phases(alloc, heading, whole.phases)
    }

    fn begin_phase(&mut self) -> Result<(), NoMemory>
        ensures phases { OnOk result ((sense : Sense) (lines : List Form)
            → phases_behind sense self.old (form.Phase ∷ lines) ≡ phases_behind sense self.new lines) }
        ensures owners { OnOk result (self.new.owners ≡ self.old.owners) }
    {
        self.end_phase()?;
        self.has_phase = true;
        Ok(())
    }

    // Ends the phase at hand, if any.
    fn end_phase(&mut self) -> Result<(), NoMemory>
        ensures phases { OnOk result ((sense : Sense)
            → map (phase_named sense.names) self.new.phases.items ≡ phases_behind sense self.old []) }
        ensures ended { OnOk result (self.new.has_phase ≡ false) }
        ensures blocks { OnOk result (self.new.blocks.items ≡ []) }
        ensures front { OnOk result (self.new.front ≡ None) }
        ensures lines { OnOk result (self.new.lines.items ≡ []) }
        ensures owners { OnOk result (self.new.owners ≡ self.old.owners) }
    {
        self.end_block()?;
        let none = Vec::new(*self.blocks.allocator());
        let blocks = mem::replace(&mut self.blocks, none);
        if self.has_phase {
            self.phases.push(PhaseDraft { blocks })?;
        }
        self.has_phase = false;
        Ok(())
    }

    // Begins a block of the session, if there is one.
    fn begin_block(
        &mut self,
        session: Option<u64>,
        owner: Option<Owner<'a>>,
    ) -> Result<(), NoMemory>
        ensures blocks { OnOk result ((names : List (List ℕ))
            → map (block_named names) self.new.blocks.items ≡ blocks_at_hand names self.old) }
        ensures front { OnOk result (self.new.front ≡ front_of session owner.entry) }
        ensures lines { OnOk result (self.new.lines.items ≡ []) }
        ensures same { OnOk result (self.new ≡ record self.old {
          blocks = self.new.blocks;
          front = self.new.front;
          lines = self.new.lines;
        }) }
    {
        self.end_block()?;
        if let Some(session) = session {
            self.front = Some(BlockFront { session, owner });
        }
        Ok(())
    }

    // Ends the block at hand, if any.
    fn end_block(&mut self) -> Result<(), NoMemory>
        ensures blocks { OnOk result ((names : List (List ℕ))
            → map (block_named names) self.new.blocks.items ≡ blocks_at_hand names self.old) }
        ensures front { OnOk result (self.new.front ≡ None) }
        ensures lines { OnOk result (self.new.lines.items ≡ []) }
        ensures same { OnOk result (self.new ≡ record self.old {
          blocks = self.new.blocks;
          front = self.new.front;
          lines = self.new.lines;
        }) }
    {
        let none = Vec::new(*self.lines.allocator());
        let lines = mem::replace(&mut self.lines, none);
        if let Some(front) = self.front.take() {
            self.blocks.push(BlockDraft { front, lines })?;
        }
        Ok(())
    }

    // Adds what a line says to the block at hand.
    fn add(&mut self, said: Option<BlockLine>) -> Result<(), NoMemory>
        ensures lines { OnOk result (self.new.lines.items ≡ self.old.lines.items ++ with_front said []) }
        ensures same { OnOk result (self.new ≡ record self.old { lines = self.new.lines }) }
    {
        if let Some(line) = said {
            self.lines.push(line)?;
        }
        Ok(())
    }
}

fn name_phases(
    alloc: Global,
    heading: &Heading,
    drafts: Vec<PhaseDraft>,
) -> Result<PhaseList, NoMemory>
    ensures { IfOk result (λ phases. phases ≡ map (phase_named heading.now.names) drafts.entry.items) }
{
    let mut phases = Vec::new(alloc);
    for draft in drafts {
        let blocks = name_blocks(alloc, heading, draft.blocks)?;
        phases.push(Phase { blocks })?;
    }
    Ok(PhaseList::new(phases))
}

fn name_blocks(
    alloc: Global,
    heading: &Heading,
    drafts: Vec<BlockDraft>,
) -> Result<BlockList, NoMemory>
    ensures { IfOk result (λ blocks. blocks ≡ map (block_named heading.now.names) drafts.entry.items) }
{
    let mut blocks = Vec::new(alloc);
    for draft in drafts {
        blocks.push(name_block(heading, draft))?;
    }
    Ok(BlockList::new(blocks))
}

fn name_block(heading: &Heading, draft: BlockDraft) -> Block
    ensures { result ≡ block_named heading.now.names draft.entry }
{
    let BlockDraft { front, lines } = draft;
    Block {
        session: front.session,
        connect: front.owner.map(|owner| connect(heading, owner)),
        lines: BlockLineList::new(lines),
    }
}

fn connect(heading: &Heading, owner: Owner) -> Connect
    ensures { result ≡ owner_named heading.now.names owner.entry }
{
    Connect {
        user: heading.name_id(owner.user),
        host: heading.name_id(owner.host),
    }
}
