//! Playing the lines of a block, those of a repeat so many times.

ghost use Rattle.std.specs.Prelude.{◌≡◌, ◌<◌, ◌≤◌, None, Some, IfOk, OnOk, length, drop};
ghost use Rattle.std.specs.List.{position};
ghost use Rattle.pfs_law_plain.specs.LineSteps.{kinds_at};
ghost use Rattle.pfs_script.specs.Marks.{copies, is_done, repeats_of, written_out};
ghost use Rattle.pfs_play.specs.Repeats.{AllMayPlay, HaveGone, repeated};
ghost use Rattle.pfs_play.specs.Errands.{CanPlay, HavePlayed, NamesLines, StagesLie, kinds_after};
ghost use Rattle.pfs_play.specs.Needs.{Advanced, Ready, need_on};

use crate::NoMemory;
use crate::lines::play_lines;
use pfs_actor::Actor;
use pfs_classes::Setting;
use pfs_script::BlockLine;
use pfs_session::Session;
use pfs_text::Rowset;
use std::alloc::Global;

/// Plays the lines of a repeat so many times, each time as they stand: none of them ends the session, and at their end
/// events of the same kinds are open as at their beginning.
pub fn play_times<A: Actor>(
    alloc: Global,
    setting: &Setting,
    session: &mut Session,
    actor: &mut A,
    answers: &mut Vec<Rowset>,
    body: &[BlockLine],
    times: u64,
) -> Result<(), NoMemory>
    requires can { CanPlay 62 session.old.state.opened.depth (kinds_at session.old.state) body.now }
    requires same { kinds_after (kinds_at session.old.state) body.now ≡ kinds_at session.old.state }
    requires lie { StagesLie (kinds_at session.old.state) }
    requires named { NamesLines A.change session.old.state.number session.old.state.actions (copies times body.now) }
    requires wide { length session.old.state.held ≡ 193 }
    requires ready { Ready (need_on (copies times body.now)) session.old (A.seen actor.old) }
    ensures played { OnOk result (HavePlayed setting.now A.setting A.change (copies times body.now) session.old
        session.new answers.old.items answers.new.items (A.seen actor.old).reached (A.seen actor.new).reached) }
    ensures kinds { OnOk result (kinds_at session.new.state ≡ kinds_at session.old.state) }
    ensures advanced { OnOk result (Advanced (need_on (copies times body.now)) session.old session.new
        (A.seen actor.old) (A.seen actor.new)) }
{
    // Empty rounds change nothing, and there may be up to 2^64 - 1 of them.
    if body.is_empty() {
        return Ok(());
    }
    for round in 0..times {
        let _ = round;
        match play_lines(alloc, setting, session, actor, answers, body) {
            Ok(()) => {}
            Err(fault) => return Err(fault),
        }
    }
    Ok(())
}

// How often the lines run that begin behind this one, where it begins a repeat.
pub(crate) fn times_of(line: &BlockLine) -> Option<u64>
    ensures { result ≡ repeats_of line.now }
{
    match line {
        BlockLine::Repeat(times) => Some(*times),
        _ => None,
    }
}

fn is_done(line: &BlockLine) -> bool
    ensures { result ≡ is_done line.now }
{
    matches!(line, BlockLine::Done)
}

// The place of the line that ends a repeat, the first of these.
pub(crate) fn done_in(lines: &[BlockLine]) -> Option<usize>
    ensures { result ≡ position is_done lines.now }
{
    lines.iter().position(|line| is_done(line))
}

// Plays the lines behind the beginning of a repeat, up to its end, so many times; once where it has no end. So many of
// the lines it took.
fn play_repeat<A: Actor>(
    alloc: Global,
    setting: &Setting,
    session: &mut Session,
    actor: &mut A,
    answers: &mut Vec<Rowset>,
    lines: &[BlockLine],
    times: u64,
) -> Result<usize, NoMemory>
    requires may { AllMayPlay 62 session.old.state.opened.depth (kinds_at session.old.state)
        (Some (kinds_at session.old.state)) lines.now }
    requires lie { StagesLie (kinds_at session.old.state) }
    requires named { NamesLines A.change session.old.state.number session.old.state.actions (repeated times
        lines.now) }
    requires wide { length session.old.state.held ≡ 193 }
    requires ready { Ready (need_on (repeated times lines.now)) session.old (A.seen actor.old) }
    ensures count { IfOk result (λ taken. taken ≤ length lines.now) }
    ensures gone { IfOk result (λ taken. HaveGone setting.now A.setting A.change (repeated times lines.now)
        (written_out (drop taken lines.now)) session.old session.new answers.old.items answers.new.items
        (A.seen actor.old) (A.seen actor.new)) }
    ensures may { IfOk result (λ taken. AllMayPlay 62 session.old.state.opened.depth (kinds_at session.new.state) None
        (drop taken lines.now)) }
    ensures kinds { IfOk result (λ taken. kinds_after (kinds_at session.new.state) (written_out (drop taken lines.now))
        ≡ kinds_after (kinds_at session.old.state) (repeated times lines.now)) }
    ensures lie { OnOk result (StagesLie (kinds_at session.new.state)) }
{
    match done_in(lines) {
        Some(end) => match play_times(
            alloc,
            setting,
            session,
            actor,
            answers,
            &lines[..end],
            times,
        ) {
            Ok(()) => Ok(end + 1),
            Err(fault) => Err(fault),
        },
        None => match play_lines(alloc, setting, session, actor, answers, lines) {
            Ok(()) => Ok(lines.len()),
            Err(fault) => Err(fault),
        },
    }
}

// Plays the line that stands first, or the repeat that it begins. So many of the lines it took.
fn play_next<A: Actor>(
    alloc: Global,
    setting: &Setting,
    session: &mut Session,
    actor: &mut A,
    answers: &mut Vec<Rowset>,
    lines: &[BlockLine],
) -> Result<usize, NoMemory>
    requires some { 0 < length lines.now }
    requires may { AllMayPlay 62 session.old.state.opened.depth (kinds_at session.old.state) None lines.now }
    requires lie { StagesLie (kinds_at session.old.state) }
    requires named { NamesLines A.change session.old.state.number session.old.state.actions (written_out lines.now) }
    requires wide { length session.old.state.held ≡ 193 }
    requires ready { Ready (need_on (written_out lines.now)) session.old (A.seen actor.old) }
    ensures count { IfOk result (λ taken. (0 < taken) × (taken ≤ length lines.now)) }
    ensures gone { IfOk result (λ taken. HaveGone setting.now A.setting A.change (written_out lines.now)
        (written_out (drop taken lines.now)) session.old session.new answers.old.items answers.new.items
        (A.seen actor.old) (A.seen actor.new)) }
    ensures may { IfOk result (λ taken. AllMayPlay 62 session.old.state.opened.depth (kinds_at session.new.state) None
        (drop taken lines.now)) }
    ensures kinds { IfOk result (λ taken. kinds_after (kinds_at session.new.state) (written_out (drop taken lines.now))
        ≡ kinds_after (kinds_at session.old.state) (written_out lines.now)) }
    ensures lie { OnOk result (StagesLie (kinds_at session.new.state)) }
{
    let Some((first, others)) = lines.split_first() else {
        return Ok(0);
    };
    match times_of(first) {
        Some(times) => match play_repeat(alloc, setting, session, actor, answers, others, times) {
            Ok(taken) => Ok(1 + taken),
            Err(fault) => Err(fault),
        },
        None => match play_lines(alloc, setting, session, actor, answers, &lines[..1]) {
            Ok(()) => Ok(1),
            Err(fault) => Err(fault),
        },
    }
}

/// Plays the lines of a block, each repeat so many times as it says; one that isn't done runs once. None of them ends
/// the session.
pub fn play_written<A: Actor>(
    alloc: Global,
    setting: &Setting,
    session: &mut Session,
    actor: &mut A,
    answers: &mut Vec<Rowset>,
    lines: &[BlockLine],
) -> Result<(), NoMemory>
    requires may { AllMayPlay 62 session.old.state.opened.depth (kinds_at session.old.state) None lines.now }
    requires lie { StagesLie (kinds_at session.old.state) }
    requires named { NamesLines A.change session.old.state.number session.old.state.actions (written_out lines.now) }
    requires wide { length session.old.state.held ≡ 193 }
    requires ready { Ready (need_on (written_out lines.now)) session.old (A.seen actor.old) }
    ensures played { OnOk result (HavePlayed setting.now A.setting A.change (written_out lines.now) session.old
        session.new answers.old.items answers.new.items (A.seen actor.old).reached (A.seen actor.new).reached) }
    ensures kinds { OnOk result (kinds_at session.new.state ≡ kinds_after (kinds_at session.old.state)
        (written_out lines.now)) }
    ensures lie { OnOk result (StagesLie (kinds_at session.new.state)) }
    ensures advanced { OnOk result (Advanced (need_on (written_out lines.now)) session.old session.new
        (A.seen actor.old) (A.seen actor.new)) }
{
    let mut at = 0;
    while at < lines.len() {
        match play_next(alloc, setting, session, actor, answers, &lines[at..]) {
            Ok(taken) => at += taken,
            Err(fault) => return Err(fault),
        }
    }
    Ok(())
}
