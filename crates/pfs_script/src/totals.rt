//! How many lines there are so far, and what they weigh.

ghost use Rattle.std.specs.Prelude.{◌≡◌, ◌≤◌, ◌+◌, ◌-◌, ◌*◌, ◌^◌, min, List, [], if◌then◌else◌};
ghost use Rattle.pfs_script.specs.declared.forms.Form.{Form};
ghost use Rattle.pfs_script.specs.LineCounts.{is_done};
ghost use Rattle.pfs_script.specs.Reasons.{is_class, one_select, weight_of};
ghost use Rattle.pfs_script.specs.Sessions.{is_phase};
ghost use Rattle.pfs_script.specs.ReaderState.{KnowsTotals, HasCounted, has_many_lines, has_much, more_with, body_with};

use crate::commands::{is_select, sql_weight};
use crate::forms::Form;

/// The most lines of a script.
const MOST_LINES: u64 = 200_000;

/// The most phases of a script.
const MOST_PHASES: u64 = 64;

/// The most classes of a script's own.
const MOST_CLASSES: u64 = 256;

/// The most SELECTs of a script.
const MOST_SELECTS: u64 = 256;

/// The most that the lines of a script may weigh.
const MOST_WEIGHT: u64 = 5_000_000;

/// What lines come to by some measure. Those of a repeat count once until it is done, and so often as it
/// says from its `done` on. Numbers past 2^64 - 1 stay there.
#[derive(Clone, Copy)]
pub struct Tally {
    pub total: u64,
    /// What the lines of the repeat that isn't done come to so far.
    pub body: u64,
}

/// Nothing.
fn no_tally() -> Tally
    ensures total { result.total ≡ 0 }
    ensures body { result.body ≡ 0 }
{
    Tally { total: 0, body: 0 }
}

impl Tally {
    /// What they come to with a line of that measure. The next line runs `more` times more than once.
    fn with(&self, line: &Form, own: u64, more: u64) -> Tally
        ensures total { result.total
            ≡ min (self.now.total + min (own + (if is_done line.now then more * self.now.body else 0)) (2 ^ 64 - 1))
            (2 ^ 64 - 1) }
        ensures body { result.body ≡ min (body_with line.now own self.now.body) (2 ^ 64 - 1) }
    {
        let added = added(line, own, more, self.body);
        Tally {
            total: self.total.saturating_add(added),
            body: match line {
                Form::Repeat { .. } | Form::Done => 0,
                _ => self.body.saturating_add(own),
            },
        }
    }
}

/// The lines so far, the SELECTs among them, what they weigh, and how many of them begin a phase or
/// register a class.
#[derive(Clone, Copy)]
pub struct Totals {
    pub lines: Tally,
    pub selects: Tally,
    pub weight: Tally,
    pub phases: u64,
    pub classes: u64,
    /// How often more than once the lines of the repeat run that isn't done; 0 outside of one.
    pub more: u64,
}

/// The totals before the first line.
pub fn no_lines() -> Totals
    ensures { KnowsTotals result [] }
{
    Totals {
        lines: no_tally(),
        selects: no_tally(),
        weight: no_tally(),
        phases: 0,
        classes: 0,
        more: 0,
    }
}

impl Totals {
    /// The totals with one more line, which may be too many or too much.
    pub fn count(&mut self, line: &Form)
        requires phases { self.old.phases ≤ 64 }
        requires classes { self.old.classes ≤ 256 }
        ensures { (before : List Form) → KnowsTotals self.old before → HasCounted self.new before line.now }
    {
        let more = self.more;
        *self = Totals {
            lines: self.lines.with(line, 1, more),
            selects: self.selects.with(line, selects(line), more),
            weight: self.weight.with(line, weight(line), more),
            phases: self.phases + phases(line),
            classes: self.classes + classes(line),
            more: more_behind(line, more),
        };
    }

    /// Whether there are too many lines.
    pub fn is_too_long(&self) -> bool
        ensures { result ≡ has_many_lines self.now }
    {
        self.lines.total > MOST_LINES
    }

    /// Whether there are too many phases, classes or SELECTs, or too much weight.
    pub fn is_too_much(&self) -> bool
        ensures { result ≡ has_much self.now }
    {
        self.phases > MOST_PHASES
            || self.classes > MOST_CLASSES
            || self.selects.total > MOST_SELECTS
            || self.weight.total > MOST_WEIGHT
    }
}

/// How often more than once the line behind this one runs.
fn more_behind(line: &Form, more: u64) -> u64
    ensures { result ≡ more_with line.now more }
{
    match line {
        Form::Repeat { times } => times.unwrap_or(0).saturating_sub(1),
        Form::Done => 0,
        _ => more,
    }
}

/// What the line adds to a count: its own measure, and at a `done` that of the repeat's lines as often
/// more than once as they run.
fn added(line: &Form, own: u64, more: u64, body: u64) -> u64
    ensures { result ≡ min (own + (if is_done line.now then more * body else 0)) (2 ^ 64 - 1) }
{
    match line {
        Form::Done => more.saturating_mul(body).saturating_add(own),
        _ => own,
    }
}

/// How many phases a line begins.
fn phases(line: &Form) -> u64
    ensures value { result ≡ (if is_phase line.now then 1 else 0) }
    ensures low { result ≤ 1 }
{
    match line {
        Form::Phase => 1,
        _ => 0,
    }
}

/// How many classes a line registers.
fn classes(line: &Form) -> u64
    ensures value { result ≡ (if is_class line.now then 1 else 0) }
    ensures low { result ≤ 1 }
{
    match line {
        Form::Class { .. } => 1,
        _ => 0,
    }
}

/// How many SELECTs a line is.
fn selects(line: &Form) -> u64
    ensures value { result ≡ one_select line.now }
    ensures low { result ≤ 1 }
{
    match line {
        Form::Sql { text } => { if is_select(text.bytes()) { 1 } else { 0 } }
        _ => 0,
    }
}

/// What a line weighs.
fn weight(line: &Form) -> u64
    ensures value { result ≡ weight_of line.now }
    ensures low { result ≤ 20000 }
{
    match line {
        Form::Phase => 10_000,
        Form::Sql { text } => sql_weight(text.bytes()),
        Form::Connect { .. } | Form::Quit => 300,
        Form::Wait { .. }
        | Form::TableWait { .. }
        | Form::Statement { .. }
        | Form::Transaction { .. }
        | Form::Stage { .. }
        | Form::StageEnd
        | Form::End
        | Form::EndStatement { .. } => 8,
        _ => 1,
    }
}
