//! What the lines so far allow next.

ghost use Rattle.std.specs.Prelude.{◌≡◌, ◌≤◌, List, ◌∷◌, ◌++◌, [], None, is_some};
ghost use Rattle.pfs_script.specs.declared.forms.Form.{Form};
ghost use Rattle.pfs_script.specs.Headings.{head_of, resolved};
ghost use Rattle.pfs_script.specs.Reasons.{has_bad_number, is_no_count, is_out_of_place, is_bad_number, is_unknown, is_event_class, is_bad_statement, is_table_too_many, fault_of};
ghost use Rattle.pfs_script.specs.Senses.{class_in};
ghost use Rattle.pfs_script.specs.ReaderState.{Knows, KnowsCounted, KnowsFinds};

use crate::courses::{Course, no_course};
use crate::finds::Finds;
use crate::forms::{Form, Number, Numbers};
use crate::fronts::{Front, no_front};
use crate::heading::{Heading, find_consumer, find_limit};
use crate::reasons::Reason;
use crate::totals::{Totals, no_lines};

/// What the lines so far amount to, as far as the next line depends on it.
#[derive(Clone, Copy)]
pub struct Place {
    pub front: Front,
    pub course: Course,
    pub totals: Totals,
}

/// The place before the first line.
pub fn start() -> Place
    ensures { Knows result [] }
{
    Place {
        front: no_front(),
        course: no_course(),
        totals: no_lines(),
    }
}

impl Place {
    /// Counts one more line, which may not stand there.
    pub fn count(&mut self, line: &Form)
        requires phases { self.old.totals.phases ≤ 64 }
        requires classes { self.old.totals.classes ≤ 256 }
        ensures { (before : List Form) → Knows self.old before → KnowsCounted self.new before line.now }
    {
        self.totals.count(line);
    }

    /// Why the line, which is counted, may not stand behind the lines so far: the least reason, or none. Its class
    /// may be there, and the lexer may have refused its text.
    #[tactic(auto, unfolding(crate::specs::Reasons::fault_of))]
    pub fn fault(
        &self,
        heading: &Heading,
        finds: &Finds,
        line: &Form,
        is_named: bool,
        refused: bool,
    ) -> Option<Reason>
        requires named { is_named ≡ is_some (class_in (resolved heading.now) line.now) }
        requires refused { refused ≡ is_bad_statement line.now }
        ensures { (before : List Form) → KnowsCounted self.now before line.now → heading.now ≡ head_of before
            → KnowsFinds finds.now before → result ≡ fault_of before line.now }
    {
        if self.is_out_of_place(line) {
            Some(Reason::OutOfPlace)
        } else if is_bad_number(line) {
            Some(Reason::BadNumber)
        } else if self.course.is_bad_session(line) {
            Some(Reason::BadSession)
        } else if is_unknown(heading, line, is_named) {
            Some(Reason::UnknownName)
        } else if self.front.is_bad_limit(line) {
            Some(Reason::BadLimit)
        } else if self.course.is_bad_nesting(line) {
            Some(Reason::BadNesting)
        } else if refused {
            Some(Reason::BadStatement)
        } else if self.totals.is_too_long() {
            Some(Reason::TooLong)
        } else if self.totals.is_too_much() || is_table_too_many(finds, line) {
            Some(Reason::TooMuch)
        } else {
            None
        }
    }

    /// The place behind one more line, which is counted and may stand there.
    pub fn pass(&mut self, line: &Form)
        ensures { (before : List Form) → KnowsCounted self.old before line.now → fault_of before line.now ≡ None
            → Knows self.new (before ++ line.now ∷ []) }
    {
        self.front.pass(line);
        self.course.pass(line);
    }

    fn is_out_of_place(&self, line: &Form) -> bool
        ensures { (before : List Form) → KnowsCounted self.now before line.now
            → result ≡ is_out_of_place before line.now }
    {
        match line {
            Form::Limit { .. } => !self.front.limits_alone,
            Form::Class { .. } | Form::Consumer { .. } | Form::Instrument { .. } => {
                self.front.has_phase
            }
            Form::Connect { .. } | Form::Resume { .. } => {
                !self.front.has_phase || self.course.is_in_repeat()
            }
            Form::Phase => self.course.is_in_repeat(),
            Form::Repeat { .. } | Form::Quit => {
                self.course.has_no_block() || self.course.is_in_repeat()
            }
            Form::Done => !self.course.is_in_repeat(),
            Form::Wait { .. }
            | Form::TableWait { .. }
            | Form::Statement { .. }
            | Form::Transaction { .. }
            | Form::Stage { .. }
            | Form::StageEnd
            | Form::Spend { .. }
            | Form::End
            | Form::EndStatement { .. }
            | Form::Sql { .. } => self.course.has_no_block(),
            _ => false,
        }
    }
}

// Whether the line names one table too many.
fn is_table_too_many(finds: &Finds, line: &Form) -> bool
    ensures { (before : List Form) → KnowsFinds finds.now before → result ≡ is_table_too_many before line.now }
{
    finds.is_table_too_many(line)
}

// Whether a number of the line is over 2^64 - 1, or it repeats no time.
fn is_bad_number(line: &Form) -> bool
    ensures { result ≡ is_bad_number line.now }
{
    match line {
        Form::Limit { value, .. } => value.is_none(),
        Form::Connect { session, .. } => session.is_none(),
        Form::Resume { session } => session.is_none(),
        Form::Spend { time } => time.is_none(),
        Form::EndStatement { numbers } => has_bad_number(numbers),
        Form::Repeat { times } => is_no_count(*times),
        _ => false,
    }
}

// Whether one of the six numbers is over 2^64 - 1.
fn has_bad_number(numbers: &Numbers) -> bool
    ensures { result ≡ has_bad_number numbers.now }
{
    numbers.lock.is_none()
        || numbers.errors.is_none()
        || numbers.warnings.is_none()
        || numbers.affected.is_none()
        || numbers.sent.is_none()
        || numbers.examined.is_none()
}

// Whether it is over 2^64 - 1, or 0.
fn is_no_count(times: Number) -> bool
    ensures { result ≡ is_no_count times }
{
    match times {
        Some(times) => times == 0,
        None => true,
    }
}

// Whether the line names what isn't known, or gives a class a name or kind that it may not have.
fn is_unknown(heading: &Heading, line: &Form, is_named: bool) -> bool
    requires { is_named ≡ is_some (class_in (resolved heading.now) line.now) }
    ensures { (before : List Form) → heading.now ≡ head_of before → result ≡ is_unknown before line.now }
{
    match line {
        Form::Limit { name, .. } => find_limit(name.bytes()).is_none(),
        Form::Class { name, kind, .. } => kind.is_fixed() || heading.is_known(name.bytes()),
        Form::Consumer { name, .. } => find_consumer(name.bytes()).is_none(),
        Form::Wait { class: name } | Form::Stage { class: name } => {
            !is_event_class(heading, name.bytes(), is_named)
        }
        Form::TableWait { class: name, .. } | Form::Statement { class: name, .. } => {
            !is_event_class(heading, name.bytes(), is_named)
        }
        _ => false,
    }
}

// Whether a wait, a statement or a stage can have the class of this name, which may stand for one.
fn is_event_class(heading: &Heading, name: &[u8], is_named: bool) -> bool
    requires { is_named ≡ is_some (resolved heading.now name.now) }
    ensures { (before : List Form) → heading.now ≡ head_of before → result ≡ is_event_class before name.now }
{
    is_named && name != b"transaction".as_slice()
}
