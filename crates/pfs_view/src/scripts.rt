//! Which script is a report's.

ghost use Rattle.std.specs.Prelude.{◌≡◌, IfOk, false, slice_get};
ghost use Rattle.std.specs.Option.{option_map_or};
ghost use Rattle.std.specs.Cmp.Lexicographic.{pointwise};
ghost use Rattle.pfs_view.specs.Scripts.{fits_block as spec_fits_block, fits_phase as spec_fits_phase, fits_phases as spec_fits_phases, judged as spec_judged, kept as spec_kept, script_phases as spec_script_phases};

use crate::NoMemory;
use crate::replies::outcome_count;
use crate::texts::texts_of;
use pfs_journal::{BlockReport, PhaseReport};
use pfs_script::{Block, Phase, PhaseList, Script, ScriptFault};
use std::alloc::{AllocError, Global};

/// Whether a script's block is the one that was reported: of the same session, with an answer for each of its texts.
#[tactic(auto, unfolding(crate::specs::Scripts::fits_block))]
fn fits_block(alloc: Global, block: &Block, report: &BlockReport) -> Result<bool, NoMemory>
    ensures { IfOk result (λ fits. fits ≡ spec_fits_block block.now report.now) }
{
    let texts = texts_of(alloc, block.lines.as_slice())?;
    Ok(block.session == report.session && texts.len() == outcome_count(&report.entries))
}

fn fits_block_at(
    alloc: Global,
    block: &Block,
    reports: &[BlockReport],
    place: usize,
) -> Result<bool, NoMemory>
    ensures { IfOk result (λ fits. fits
        ≡ option_map_or (spec_fits_block block.now) (slice_get reports.now place) false) }
{
    match reports.get(place) {
        Some(report) => fits_block(alloc, block, report),
        None => Ok(false),
    }
}

/// Whether these blocks are those that were reported, one by one.
fn fit_blocks(alloc: Global, blocks: &[Block], reports: &[BlockReport]) -> Result<bool, NoMemory>
    ensures { IfOk result (λ fits. fits ≡ pointwise spec_fits_block blocks.now reports.now) }
{
    for place in 0..blocks.len() {
        let fits = fits_block_at(alloc, &blocks[place], reports, place)?;
        if !fits {
            return Ok(false);
        }
    }
    Ok(reports.len() <= blocks.len())
}

#[tactic(auto, unfolding(crate::specs::Scripts::fits_phase))]
fn fits_phase(alloc: Global, phase: &Phase, report: &PhaseReport) -> Result<bool, NoMemory>
    ensures { IfOk result (λ fits. fits ≡ spec_fits_phase phase.now report.now) }
{
    fit_blocks(
        alloc,
        phase.blocks.as_slice(),
        report.parts().blocks.as_slice(),
    )
}

fn fits_phase_at(
    alloc: Global,
    phase: &Phase,
    reports: &[PhaseReport],
    place: usize,
) -> Result<bool, NoMemory>
    ensures { IfOk result (λ fits. fits
        ≡ option_map_or (spec_fits_phase phase.now) (slice_get reports.now place) false) }
{
    match reports.get(place) {
        Some(report) => fits_phase(alloc, phase, report),
        None => Ok(false),
    }
}

/// Whether these phases are those that were reported, one by one.
#[tactic(auto, unfolding(crate::specs::Scripts::fits_phases))]
fn fit_phases(alloc: Global, phases: &[Phase], reports: &[PhaseReport]) -> Result<bool, NoMemory>
    ensures { IfOk result (λ fits. fits ≡ spec_fits_phases phases.now reports.now) }
{
    for place in 0..phases.len() {
        let fits = fits_phase_at(alloc, &phases[place], reports, place)?;
        if !fits {
            return Ok(false);
        }
    }
    Ok(reports.len() <= phases.len())
}

/// The phases that a script says; none of a text that is no script.
fn script_phases(alloc: Global, text: &[u8]) -> Result<PhaseList, NoMemory>
    ensures { IfOk result (λ phases. phases ≡ spec_script_phases text.now) }
{
    match Script::read(alloc, text) {
        Ok(script) => {
            let Script { phases, .. } = script;
            Ok(phases)
        }
        Err(ScriptFault::Bad { .. }) => Ok(PhaseList::new(Vec::new(alloc))),
        Err(ScriptFault::NoMemory) => Err(AllocError),
    }
}

/// These phases, where they are those that were reported.
fn kept(
    alloc: Global,
    phases: PhaseList,
    reports: &[PhaseReport],
) -> Result<Option<PhaseList>, NoMemory>
    ensures { IfOk result (λ said. said ≡ spec_kept phases reports.now) }
{
    if fit_phases(alloc, phases.as_slice(), reports)? {
        Ok(Some(phases))
    } else {
        Ok(None)
    }
}

/// The phases of the script of these reports, and of an empty text none; None where the script is another one or none.
pub(crate) fn judged(
    alloc: Global,
    script: &[u8],
    reports: &[PhaseReport],
) -> Result<Option<PhaseList>, NoMemory>
    ensures { IfOk result (λ said. said ≡ spec_judged script.now reports.now) }
{
    if script.is_empty() {
        return Ok(Some(PhaseList::new(Vec::new(alloc))));
    }
    let phases = script_phases(alloc, script)?;
    kept(alloc, phases, reports)
}
