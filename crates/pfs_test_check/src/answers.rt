//! The first fault of a report by the rules of its shape, its actions, its rows' versions, its switch words, what was
//! seen, verdicts and numbers.

use pfs_check_cut::{CutPhase, ShapeFault, cut_report};
use pfs_check_numbers::{NumbersRule, judge_numbers};
use pfs_check_orders::{Orders, replay};
use pfs_check_seen::{SeenRule, judge_seen};
use pfs_check_setup::{SetupRule, judge_setup};
use pfs_check_verdicts::{VerdictRule, judge_verdicts};
use pfs_check_versions::{ActionRule, ActionsFound, ChainRule, judge_actions, judge_chain};
use pfs_journal::{Report, ReportParts, read};
use pfs_script::Script;
use std::alloc::Global;

/// Which rule fails first, and at which line.
#[derive(Clone, Copy, Debug, PartialEq, Eq)]
pub(crate) enum Answer {
    /// None of those that are asked.
    Good,
    Shape(u64),
    Actions(u64),
    Chain(u64),
    Setup(u64),
    Seen(u64),
    Verdict(u64),
    Numbers(u64),
    /// A text isn't read, or memory ran out.
    Unread,
}

/// A report that is cut by its script, with what its actions may ask for.
#[derive(Drop)]
pub(crate) struct Replayed {
    pub script: Script,
    pub report: Report,
    pub cuts: Vec<CutPhase>,
    pub found: ActionsFound,
    pub orders: Orders,
}

/// The report by the first two rules, or how it fails them.
pub(crate) fn replay_report(
    alloc: Global,
    script: &[u8],
    report: &[u8],
) -> Result<Replayed, Answer> {
    pfs_check_named::laws::named_changes();
    let Ok(script) = Script::read(alloc, script) else {
        return Err(Answer::Unread);
    };
    let Ok(report) = read(alloc, report) else {
        return Err(Answer::Unread);
    };
    let cuts = match cut_report(alloc, script.phases.as_slice(), report.parts()) {
        Ok(cuts) => cuts,
        Err(ShapeFault::Line(line)) => return Err(Answer::Shape(line)),
        Err(ShapeFault::NoMemory) => return Err(Answer::Unread),
    };
    let found = match judge_actions(alloc, report.parts()) {
        Ok(ActionRule::Kept(found)) => found,
        Ok(ActionRule::Wrong(line)) => return Err(Answer::Actions(line)),
        Err(_) => return Err(Answer::Unread),
    };
    let phases = script.phases.as_slice();
    let labels = found.labels.as_slice();
    let Ok(orders) = replay(alloc, &script.setting, phases, labels) else {
        return Err(Answer::Unread);
    };
    Ok(Replayed {
        script,
        report,
        cuts,
        found,
        orders,
    })
}

fn chain_answer(alloc: Global, report: &ReportParts) -> Answer {
    match judge_chain(alloc, report) {
        Ok(ChainRule::Kept(_)) => Answer::Good,
        Ok(ChainRule::Wrong(line)) => Answer::Chain(line),
        Err(_) => Answer::Unread,
    }
}

fn setup_answer(alloc: Global, report: &Replayed) -> Answer {
    let cuts = report.cuts.as_slice();
    let parts = report.report.parts();
    match judge_setup(alloc, cuts, parts, &report.found.actions, &report.orders) {
        Ok(SetupRule::Kept) => Answer::Good,
        Ok(SetupRule::Wrong(line)) => Answer::Setup(line),
        Err(_) => Answer::Unread,
    }
}

fn seen_answer(alloc: Global, report: &Replayed) -> Answer {
    match judge_seen(alloc, report.cuts.as_slice(), report.report.parts()) {
        Ok(SeenRule::Kept) => Answer::Good,
        Ok(SeenRule::Wrong(line)) => Answer::Seen(line),
        Err(_) => Answer::Unread,
    }
}

fn verdict_answer(alloc: Global, report: &Replayed) -> Answer {
    let cuts = report.cuts.as_slice();
    match judge_verdicts(alloc, &report.script.setting, cuts, report.report.parts()) {
        Ok(VerdictRule::Kept) => Answer::Good,
        Ok(VerdictRule::Wrong(line)) => Answer::Verdict(line),
        Err(_) => Answer::Unread,
    }
}

fn numbers_answer(alloc: Global, report: Replayed) -> Answer {
    let Replayed {
        report,
        cuts,
        orders,
        ..
    } = report;
    match judge_numbers(alloc, cuts.as_slice(), report.parts(), orders) {
        Ok(NumbersRule::Kept(_)) => Answer::Good,
        Ok(NumbersRule::Wrong(line)) => Answer::Numbers(line),
        Err(_) => Answer::Unread,
    }
}

// The rules behind the second.
fn later_fault(alloc: Global, report: Replayed) -> Answer {
    let chain = chain_answer(alloc, report.report.parts());
    if chain != Answer::Good {
        return chain;
    }
    let setup = setup_answer(alloc, &report);
    if setup != Answer::Good {
        return setup;
    }
    let seen = seen_answer(alloc, &report);
    if seen != Answer::Good {
        return seen;
    }
    let verdict = verdict_answer(alloc, &report);
    if verdict != Answer::Good {
        return verdict;
    }
    numbers_answer(alloc, report)
}

/// The first rule that fails of the first seven.
pub(crate) fn first_fault(alloc: Global, script: &[u8], report: &[u8]) -> Option<Answer> {
    match replay_report(alloc, script, report) {
        Ok(report) => Some(later_fault(alloc, report)),
        Err(answer) => Some(answer),
    }
}

/// What is put in place of a part of a text, where that part stands first.
#[derive(Drop)]
pub(crate) struct Edit {
    pub old: &'static [u8],
    pub new: &'static [u8],
    /// What is answered then.
    pub answer: Answer,
}

/// The text with one change; None where the part doesn't stand there, or memory runs out.
pub(crate) fn edited(alloc: Global, text: &[u8], edit: &Edit) -> Option<Vec<u8>> {
    for at in 0..text.len() {
        let (front, behind) = text.split_at(at);
        if let Some(behind) = behind.strip_prefix(edit.old) {
            let mut text = Vec::from_slice(alloc, front).ok()?;
            text.extend_from_slice(edit.new).ok()?;
            text.extend_from_slice(behind).ok()?;
            return Some(text);
        }
    }
    None
}

/// The answer of a report with one change.
pub(crate) fn edited_answer(
    alloc: Global,
    script: &[u8],
    report: &[u8],
    edit: &Edit,
) -> Option<Answer> {
    let report = edited(alloc, report, edit)?;
    first_fault(alloc, script, report.as_slice())
}
