//! A run of a whole script.

ghost use Rattle.std.specs.Prelude.{◌≡◌, ◌+◌, ◌++◌, ◌∷◌, [], ℕ, List, IfOk, OnOk, length};
ghost use Rattle.pfs_law_script.specs.Course.{numbered};
ghost use Rattle.pfs_script.specs.Scripts.{IsScript};
ghost use Rattle.pfs_script.specs.declared.blocks.Phase.{Phase as SaidPhase};
ghost use Rattle.pfs_runs.specs.Runs.{IsPlainRun};
ghost use Rattle.pfs_runs.specs.ScriptLines.{change_in};
ghost use Rattle.pfs_run.specs.RunPositions.{IsAlong, position, standing};

use crate::NoMemory;
use crate::naming::{Picked, Run};
use crate::runner::Runner;
use pfs_actor::PlainActor;
use pfs_admin::Named;
use pfs_classes::Setting;
use pfs_journal::{PhaseList, Report, ReportParts};
use pfs_levels::Readable;
use pfs_script::Phase;
use std::alloc::Global;
use std::marker::Brand;

/// The number of the report's format: that of a whole report.
const FORMAT: u64 = 1;

/// Runs a script on one thread, its sessions one after another in the order of its blocks, and reports it.
pub fn run_plain(alloc: Global, setting: &Setting, phases: &[Phase]) -> Result<Report, NoMemory>
    requires { (text : List ℕ) × IsScript text setting.now phases.now }
    ensures { IfOk result (λ report. IsPlainRun setting.now phases.now report) }
{
    run_picked::<Brand>(alloc, setting, phases)
}

// The same of a run whose setting and changes are picked.
fn run_picked<P: Picked>(
    alloc: Global,
    setting: &Setting,
    phases: &[Phase],
) -> Result<Report, NoMemory>
    requires setting { P.setting ≡ setting.now }
    requires change { P.change ≡ change_in phases.now }
    requires script { (text : List ℕ) × IsScript text setting.now phases.now }
    ensures { IfOk result (λ report. IsPlainRun setting.now phases.now report) }
{
    run_named::<Run<P>>(alloc, setting, phases)
}

// The same of a run that contracts name.
fn run_named<N: Named>(
    alloc: Global,
    setting: &Setting,
    phases: &[Phase],
) -> Result<Report, NoMemory>
    requires setting { N.setting ≡ setting.now }
    requires change { N.change ≡ change_in phases.now }
    requires script { (text : List ℕ) × IsScript text setting.now phases.now }
    ensures { IfOk result (λ report. IsPlainRun setting.now phases.now report) }
{
    pfs_law_script::runs::whole();
    pfs_law_script::runs::run();
    pfs_law_report::ends::all_end();
    let mut runner: Runner<N> = Runner::open(alloc, setting)?;
    for phase in phases {
        match run_phase(&mut runner, setting, phases, phase) {
            Ok(()) => {}
            Err(fault) => return Err(fault),
        }
    }
    Ok(Report::new(ReportParts {
        format: FORMAT,
        phases: PhaseList::new(runner.into_phases()),
    }))
}

// The blocks of a phase, and its end.
fn run_phase<N: Named>(
    runner: &mut Runner<N>,
    setting: &Setting,
    phases: &[Phase],
    phase: &Phase,
) -> Result<(), NoMemory>
    requires setting { N.setting ≡ setting.now }
    requires change { N.change ≡ change_in phases.now }
    requires script { (text : List ℕ) × IsScript text setting.now phases.now }
    requires here { (before : List SaidPhase) × (after : List SaidPhase)
        × (phases.now ≡ before ++ phase.now ∷ after)
        × IsAlong setting.now phases.now (position before [] (numbered (1 + length before) (phase.now ∷ after)))
        (standing (⟦<PlainActor<N> as Readable>⟧.seen runner.old.actor) runner.old.progress) }
    ensures { OnOk result ((before : List SaidPhase) → (after : List SaidPhase)
        → phases.now ≡ before ++ phase.now ∷ after
        → IsAlong setting.now phases.now (position before [] (numbered (1 + length before) (phase.now ∷ after)))
        (standing (⟦<PlainActor<N> as Readable>⟧.seen runner.old.actor) runner.old.progress)
        → IsAlong setting.now phases.now (position (before ++ phase.now ∷ []) []
        (numbered (1 + length (before ++ phase.now ∷ [])) after))
        (standing (⟦<PlainActor<N> as Readable>⟧.seen runner.new.actor) runner.new.progress)) }
{
    pfs_law_report::report_values::names();
    pfs_law_report::report_values::texts();
    pfs_law_report::report_values::table_names();
    for block in phase.blocks.as_slice() {
        match runner.play(setting, phases, block) {
            Ok(()) => {}
            Err(fault) => return Err(fault),
        }
    }
    runner.end_phase(setting)
}
