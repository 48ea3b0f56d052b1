//! How many events of each kind are open.

ghost use Rattle.std.specs.Prelude.{◌≡◌, ◌≤◌, ◌<◌, ◌+◌, ◌^◌, ◌==◌, ◌&&◌, ◌||◌, not, [], true, false, is_some};
ghost use Rattle.pfs_script.specs.Sessions.{is_quit};
ghost use Rattle.pfs_script.specs.Marks.{Ends};
ghost use Rattle.pfs_script.specs.Brackets.{innermost, is_in_statement, kinds_behind, may_stand};
ghost use Rattle.pfs_script.specs.Reasons.{mark_of_form, same_kinds};
ghost use Rattle.pfs_script.specs.ReaderState.{kinds_in, no_session};

use crate::forms::Form;

/// The open events of a block, by their kinds. What may start inside what leaves them one order: from
/// the innermost on, waits, a stage, statements and a transaction. So no stack is needed.
#[derive(Clone, Copy, PartialEq, Eq)]
pub struct OpenKinds {
    pub waits: u64,
    pub has_stage: bool,
    pub statements: u64,
    pub has_transaction: bool,
}

/// Nothing is open.
pub fn nothing_open() -> OpenKinds
    ensures kinds { kinds_in result ≡ [] }
    ensures inside { result.has_stage ≡ true → 1 ≤ result.statements }
    ensures waits { result.waits ≡ 0 }
    ensures statements { result.statements ≡ 0 }
    ensures has_stage { result.has_stage ≡ false }
    ensures has_transaction { result.has_transaction ≡ false }
{
    OpenKinds {
        waits: 0,
        has_stage: false,
        statements: 0,
        has_transaction: false,
    }
}

impl OpenKinds {
    /// Whether events of the same kinds are open in both.
    pub fn is_same(&self, other: &OpenKinds) -> bool
        ensures { result ≡ same_kinds (kinds_in self.now) (kinds_in other.now) }
    {
        self == other
    }

    /// Whether nothing is open.
    pub fn is_empty(&self) -> bool
        ensures value { result ≡ (self.now.waits == 0 && not self.now.has_stage && self.now.statements == 0
            && not self.now.has_transaction) }
        ensures none { result ≡ not (is_some (innermost (kinds_in self.now))) }
    {
        self.waits == 0 && !self.has_stage && self.statements == 0 && !self.has_transaction
    }

    /// Whether the innermost event is a statement, or a stage of one.
    pub fn is_in_statement(&self) -> bool
        ensures { result ≡ is_in_statement (kinds_in self.now) }
    {
        self.waits == 0 && (self.has_stage || self.statements > 0)
    }

    /// Whether the line may start or end what it does where these events are open.
    pub fn may_stand(&self, line: &Form) -> bool
        ensures { result ≡ may_stand (kinds_in self.now) (mark_of_form line.now) }
    {
        match line {
            Form::Statement { .. } => self.waits == 0 && !self.has_stage,
            Form::Transaction { .. } => self.is_empty(),
            Form::Stage { .. } => self.waits == 0 && self.statements > 0,
            Form::StageEnd => self.waits == 0 && self.has_stage,
            Form::End | Form::EndStatement { .. } => !self.is_empty(),
            _ => true,
        }
    }

    /// The events that are open behind the line. Numbers past 2^64 - 1 stay there.
    pub fn pass(&mut self, line: &Form)
        ensures kinds { self.old.waits < 2 ^ 63 → self.old.statements < 2 ^ 63
            → may_stand (kinds_in self.old) (mark_of_form line.now) ≡ true
            → (self.old.has_stage ≡ true → 1 ≤ self.old.statements)
            → kinds_in self.new ≡ kinds_behind (mark_of_form line.now) (kinds_in self.old) }
        ensures inside { may_stand (kinds_in self.old) (mark_of_form line.now) ≡ true
            → (self.old.has_stage ≡ true → 1 ≤ self.old.statements)
            → self.new.has_stage ≡ true → 1 ≤ self.new.statements }
        ensures waits { self.new.waits ≤ self.old.waits + 1 }
        ensures statements { self.new.statements ≤ self.old.statements + 1 }
    {
        match line {
            Form::Wait { .. } | Form::TableWait { .. } => self.waits = self.waits.saturating_add(1),
            Form::Statement { .. } => self.statements = self.statements.saturating_add(1),
            Form::Transaction { .. } => self.has_transaction = true,
            Form::Stage { .. } => self.has_stage = true,
            Form::StageEnd => self.has_stage = false,
            Form::End | Form::EndStatement { .. } => self.end(),
            _ => {}
        }
    }

    // The events that are open behind an end.
    fn end(&mut self)
        ensures kinds { (self.old.has_stage ≡ true → 1 ≤ self.old.statements)
            → kinds_in self.new ≡ kinds_behind Ends (kinds_in self.old) }
        ensures inside { (self.old.has_stage ≡ true → 1 ≤ self.old.statements) → self.new.has_stage ≡ true
            → 1 ≤ self.new.statements }
        ensures waits { self.new.waits ≤ self.old.waits }
        ensures statements { self.new.statements ≤ self.old.statements }
    {
        if self.waits > 0 {
            self.waits -= 1;
        } else if self.has_stage {
            self.has_stage = false;
            self.statements = self.statements.saturating_sub(1);
        } else if self.statements > 0 {
            self.statements -= 1;
        } else {
            self.has_transaction = false;
        }
    }
}

/// What is known of a session behind its lines so far.
#[derive(Clone, Copy)]
pub struct SessionState {
    /// It has had a block.
    pub has_begun: bool,
    pub has_quit: bool,
    pub events: OpenKinds,
}

/// The state of a session without a line.
pub fn no_session() -> SessionState
    ensures { result ≡ no_session }
{
    SessionState {
        has_begun: false,
        has_quit: false,
        events: nothing_open(),
    }
}

impl SessionState {
    /// The state behind one more line of its block.
    pub fn pass(&mut self, line: &Form)
        ensures begun { self.new.has_begun ≡ self.old.has_begun }
        ensures quits { self.new.has_quit ≡ (self.old.has_quit || is_quit line.now) }
        ensures kinds { self.old.events.waits < 2 ^ 63 → self.old.events.statements < 2 ^ 63
            → may_stand (kinds_in self.old.events) (mark_of_form line.now) ≡ true
            → (self.old.events.has_stage ≡ true → 1 ≤ self.old.events.statements)
            → kinds_in self.new.events ≡ kinds_behind (mark_of_form line.now) (kinds_in self.old.events) }
        ensures inside { may_stand (kinds_in self.old.events) (mark_of_form line.now) ≡ true
            → (self.old.events.has_stage ≡ true → 1 ≤ self.old.events.statements)
            → self.new.events.has_stage ≡ true → 1 ≤ self.new.events.statements }
        ensures waits { self.new.events.waits ≤ self.old.events.waits + 1 }
        ensures statements { self.new.events.statements ≤ self.old.events.statements + 1 }
    {
        self.has_quit = self.has_quit || matches!(line, Form::Quit);
        self.events.pass(line);
    }
}
