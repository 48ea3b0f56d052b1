//! A block of a report, cut by the lines of its script's block.

ghost use Rattle.std.specs.Prelude.{List};
ghost use Rattle.pfs_model.specs.EntryPlaces.{Block as Told};
ghost use Rattle.pfs_check_cut.specs.CutReports.{AreBlocksCut, AreEntriesCut, IsBlockCut};
ghost use Rattle.pfs_check_cut.specs.Sessions.{AreTrailsOf};
ghost use Rattle.pfs_check_trail.specs.Trails.{IsTrailOf};
ghost use Rattle.pfs_model.specs.Contexts.{Context};

use crate::NoMemory;
use crate::sessions::{keep_trail, take_trail};
use pfs_check_line_numbers::{behind, behind_block, behind_entries};
use pfs_check_lines::lines_in;
use pfs_check_parts::{Cut, cut_journal};
use pfs_check_trail::Trail;
use pfs_journal::BlockReport;
use pfs_model::Line;
use pfs_script::Block;
use std::alloc::{AllocFailed, Global};
use std::collections::BTreeMap;

/// A block of a report, cut into the parts of its lines.
#[derive(Drop)]
pub struct CutBlock {
    /// The phase, counted from 1.
    pub phase: u64,
    /// The session's number.
    pub session: u64,
    /// The lines of the script's block, each repeat written out, the end of the block among them.
    pub lines: Vec<Line>,
    /// The place behind the entries of each line, in the block's journal.
    pub ends: Vec<usize>,
}

/// The blocks of a phase, in order.
#[derive(Drop)]
pub struct CutPhase {
    pub blocks: Vec<CutBlock>,
}

/// Why a report wasn't cut.
#[derive(Clone, Copy, Debug, PartialEq, Eq)]
pub enum ShapeFault {
    /// This line, counted from 1, is the first one that no report of the script has there.
    Line(u64),
    /// Memory ran out.
    NoMemory,
}

impl From<NoMemory> for ShapeFault {
    ghost use Rattle.std.specs.Prelude.{◌≡◌};
    ghost use Rattle.pfs_check_cut.specs.declared.blocks.ShapeFault.TheVariants.{NoMemory as ran_out};

    ghost from_gives = { λ _ fault. fault ≡ ran_out };

    fn from(_: NoMemory) -> ShapeFault {
        ShapeFault::NoMemory
    }
}

impl<T: Drop> From<AllocFailed<T>> for ShapeFault {
    ghost use Rattle.std.specs.Prelude.{◌≡◌};
    ghost use Rattle.pfs_check_cut.specs.declared.blocks.ShapeFault.TheVariants.{NoMemory as ran_out};

    ghost from_gives = { λ _ fault. fault ≡ ran_out };

    fn from(_: AllocFailed<T>) -> ShapeFault {
        ShapeFault::NoMemory
    }
}

// Cuts the entries of a block whose `session` line this is.
fn cut_entries(
    alloc: Global,
    trail: &mut Trail,
    line: u64,
    lines: &[Line],
    report: &BlockReport,
) -> Result<Vec<usize>, ShapeFault>
    ensures { (context : Context) → IsTrailOf context trail.old
        → AreEntriesCut context line lines.now report.now result trail.new }
{
    match cut_journal(alloc, trail, lines, &report.entries)? {
        Cut::Parts(ends) => Ok(ends),
        Cut::Misfit(place) => {
            let first = behind(line, 1)?;
            let at = behind_entries(first, &report.entries, report.answers.as_slice(), place)?;
            Err(ShapeFault::Line(at))
        }
    }
}

// Cuts a block whose `session` line this is, behind the blocks that the trails have.
fn cut_block(
    alloc: Global,
    trails: &mut BTreeMap<u64, Trail>,
    phase: u64,
    line: u64,
    said: &Block,
    report: &BlockReport,
) -> Result<CutBlock, ShapeFault>
    ensures { (earlier : List Told) → AreTrailsOf earlier trails.old
        → IsBlockCut earlier phase line said.now report.now result trails.new }
{
    if report.session != said.session {
        return Err(ShapeFault::Line(line));
    }
    let lines = lines_in(alloc, said)?;
    let mut trail = take_trail(alloc, trails, said.session);
    let ends = match cut_entries(alloc, &mut trail, line, lines.as_slice(), report) {
        Ok(ends) => ends,
        Err(fault) => return Err(fault),
    };
    keep_trail(trails, said.session, trail)?;
    Ok(CutBlock {
        phase,
        session: said.session,
        lines,
        ends,
    })
}

/// Cuts the blocks of a phase, where this is the line of the first one; with the line behind them.
pub(crate) fn cut_blocks(
    alloc: Global,
    trails: &mut BTreeMap<u64, Trail>,
    phase: u64,
    line: u64,
    saids: &[Block],
    reports: &[BlockReport],
) -> Result<(Vec<CutBlock>, u64), ShapeFault>
    ensures { (earlier : List Told) → AreTrailsOf earlier trails.old
        → AreBlocksCut earlier phase line saids.now reports.now result trails.new }
{
    let mut blocks = Vec::new(alloc);
    let mut end = line;
    for (place, said) in saids.iter().enumerate() {
        if place >= reports.len() {
            return Err(ShapeFault::Line(end));
        }
        let report = &reports[place];
        match cut_block(alloc, trails, phase, end, said, report) {
            Ok(block) => {
                let next = behind_block(end, report)?;
                blocks.push(block)?;
                end = next;
            }
            Err(fault) => return Err(fault),
        }
    }
    if saids.len() < reports.len() {
        return Err(ShapeFault::Line(end));
    }
    Ok((blocks, end))
}
