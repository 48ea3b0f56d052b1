//! The phase, the block and the session in which the next line would stand.

ghost use Rattle.std.specs.Prelude.{◌≡◌, ◌<◌, ◌^◌, ◌&&◌, ◌||◌, not, nat_le, ℕ, List, ◌∷◌, ◌++◌, [], Bool, true, false, IfSome, Option, length, get_or, slice_set, unwrap_or, if◌then◌else◌};
ghost use Rattle.std.specs.List.{list_any};
ghost use Rattle.pfs_script.specs.declared.forms.Form.{Form};
ghost use Rattle.pfs_script.specs.Sessions.{is_block_of, phase_of, has_quit};
ghost use Rattle.pfs_script.specs.Reasons.{is_bad_number, is_bad_session, is_bad_nesting, is_out_of_place, is_blockless, kinds_open, same_kinds};
ghost use Rattle.pfs_script.specs.LineCounts.{ahead_of_last, is_repeat, is_in_repeat};
ghost use Rattle.pfs_script.specs.ReaderState.{KnowsCourse, state_at, no_session, kinds_in};

use crate::forms::Form;
use crate::open_kinds::{OpenKinds, SessionState, no_session};

/// What is known of each session, which of them have a block in the phase, and the block of the next
/// line.
#[derive(Clone, Copy)]
pub struct Course {
    /// By session number; no session has the number 0.
    pub sessions: [SessionState; 65],
    /// Which sessions have a block in the phase so far.
    pub here: [bool; 65],
    /// The session of the block; 0 where the phase has no block yet.
    pub present: u64,
    /// The events that were open where a repeat began, while it isn't done.
    pub repeat: Option<OpenKinds>,
}

/// The course before the first line.
pub fn no_course() -> Course
    ensures { KnowsCourse result [] }
{
    Course {
        sessions: no_sessions(),
        here: nobody(),
        present: 0,
        repeat: None,
    }
}

// No session has a block in the phase.
fn nobody() -> [bool; 65]
    ensures none { (number : ℕ) → number < 65 → get_or result number false ≡ false }
    ensures numbers { length result ≡ 65 }
{
    [false; 65]
}

// No session has had a block.
fn no_sessions() -> [SessionState; 65]
    ensures none { (number : ℕ) → number < 65 → state_at result number ≡ no_session }
    ensures numbers { length result ≡ 65 }
{
    [no_session(); 65]
}

impl Course {
    // What is known of the session of the block; of session 0 where there is none.
    fn state(&self) -> SessionState
        ensures { self.now.present < 65 → result ≡ state_at self.now.sessions self.now.present }
    {
        if self.present < 65 {
            self.sessions[self.present as usize]
        } else {
            no_session()
        }
    }

    /// Whether no line of a block may stand there: there is no block yet, or its session has quit.
    pub fn has_no_block(&self) -> bool
        ensures { (before : List Form) → KnowsCourse self.now before → result ≡ is_blockless before }
    {
        self.present == 0 || self.state().has_quit
    }

    /// Whether a repeat isn't done.
    pub fn is_in_repeat(&self) -> bool
        ensures { (before : List Form) → KnowsCourse self.now before → result ≡ is_in_repeat before }
    {
        self.repeat.is_some()
    }

    /// Whether the line begins a block of a session that there isn't, that has a block in the phase
    /// already or has quit; or names are missing at its first block or given at a later one.
    pub fn is_bad_session(&self, line: &Form) -> bool
        ensures { (before : List Form) → KnowsCourse self.now before → result ≡ is_bad_session before line.now }
    {
        match line {
            Form::Connect {
                session: Some(number),
                ..
            } => self.is_bad_first(*number),
            Form::Resume {
                session: Some(number),
            } => self.is_bad_later(*number),
            _ => false,
        }
    }

    // Whether it can't be the session's first block.
    fn is_bad_first(&self, number: u64) -> bool
        ensures { (before : List Form) → KnowsCourse self.now before
            → result ≡ (not (nat_le 1 number && nat_le number 64) || list_any (is_block_of number) before) }
    {
        number < 1 || number > 64 || self.sessions[number as usize].has_begun
    }

    // Whether it can't be a later block of the session.
    fn is_bad_later(&self, number: u64) -> bool
        ensures { (before : List Form) → KnowsCourse self.now before
            → result ≡ (not (nat_le 1 number && nat_le number 64)
            || (not (list_any (is_block_of number) before)
            || (list_any (is_block_of number) (phase_of before) || has_quit number before))) }
    {
        if number < 1 || number > 64 {
            return true;
        }
        let state = self.sessions[number as usize];
        !state.has_begun || self.here[number as usize] || state.has_quit
    }

    /// Whether the line breaks a rule of opening and ending.
    pub fn is_bad_nesting(&self, line: &Form) -> bool
        ensures { (before : List Form) → KnowsCourse self.now before → is_out_of_place before line.now ≡ false
            → result ≡ is_bad_nesting before line.now }
    {
        let events = self.events();
        match line {
            Form::EndStatement { .. } => !events.is_in_statement(),
            Form::Quit => !events.is_empty(),
            Form::Done => !self.are_as_at_repeat(),
            _ => !events.may_stand(line),
        }
    }

    // The open events of the session in whose block the next line stands.
    fn events(&self) -> OpenKinds
        ensures { (before : List Form) → KnowsCourse self.now before → kinds_in result ≡ kinds_open before }
    {
        self.state().events
    }

    // Whether events of the kinds are open that were open where the repeat began.
    fn are_as_at_repeat(&self) -> bool
        ensures { (before : List Form) → KnowsCourse self.now before → is_in_repeat before ≡ true
            → result ≡ same_kinds (kinds_open before) (kinds_open (ahead_of_last is_repeat before)) }
    {
        match &self.repeat {
            Some(first) => self.events().is_same(first),
            None => false,
        }
    }

    /// The course with one more line.
    pub fn pass(&mut self, line: &Form)
        ensures { (before : List Form) → length before < 2 ^ 63 → KnowsCourse self.old before
            → is_bad_number line.now ≡ false → is_bad_session before line.now ≡ false
            → is_bad_nesting before line.now ≡ false
            → KnowsCourse self.new (before ++ line.now ∷ []) }
    {
        match line {
            Form::Phase => self.begin_phase(),
            Form::Connect { session, .. } => self.begin_block(session.unwrap_or(0)),
            Form::Resume { session } => self.begin_block(session.unwrap_or(0)),
            Form::Repeat { .. } => self.repeat = Some(self.events()),
            Form::Done => self.repeat = None,
            _ => {
                if self.present < 65 {
                    self.sessions[self.present as usize].pass(line);
                }
            }
        }
    }

    fn begin_phase(&mut self)
        ensures here { (number : ℕ) → number < 65 → get_or self.new.here number false ≡ false }
        ensures here_numbers { length self.new.here ≡ 65 }
        ensures present { self.new.present ≡ 0 }
        ensures sessions { self.new.sessions ≡ self.old.sessions }
        ensures repeat { self.new.repeat ≡ self.old.repeat }
    {
        self.here = nobody();
        self.present = 0;
    }

    fn begin_block(&mut self, number: u64)
        ensures sessions { number < 65
            → self.new.sessions ≡ slice_set self.old.sessions number
            (record (state_at self.old.sessions number) { has_begun = true }) }
        ensures here { number < 65 → self.new.here ≡ slice_set self.old.here number true }
        ensures present { number < 65 → self.new.present ≡ number }
        ensures repeat { number < 65 → self.new.repeat ≡ self.old.repeat }
    {
        if number < 65 {
            let mut state = self.sessions[number as usize];
            state.has_begun = true;
            self.sessions[number as usize] = state;
            self.here[number as usize] = true;
            self.present = number;
        }
    }
}
