//! Whether limits and setup lines may still come, and which limits were given.

ghost use Rattle.std.specs.Prelude.{◌≡◌, ◌<◌, ◌||◌, ◌∷◌, ◌++◌, [], List, Bool, false, Some, not, length, get_or};
ghost use Rattle.std.specs.List.{list_any, list_all};
ghost use Rattle.pfs_rows.specs.declared.limits.Limit.{Limit};
ghost use Rattle.pfs_rows.specs.Limits.{order_of};
ghost use Rattle.pfs_script.specs.declared.forms.Form.{Form};
ghost use Rattle.pfs_script.specs.Headings.{is_before_limits};
ghost use Rattle.pfs_script.specs.Reasons.{is_bad_limit, is_within, same_limit, gives};
ghost use Rattle.pfs_script.specs.ReaderState.{KnowsFront};

use crate::forms::Form;
use crate::heading::find_limit;
use pfs_rows::Limit;

/// What stands before the first phase so far.
#[derive(Clone, Copy)]
pub struct Front {
    /// There are limits and silent lines alone.
    pub limits_alone: bool,
    pub has_phase: bool,
    /// Which limits were given, in the order of the limits.
    pub given: [bool; 13],
}

/// The front before the first line.
pub fn no_front() -> Front
    ensures { KnowsFront result [] }
{
    Front {
        limits_alone: true,
        has_phase: false,
        given: [false; 13],
    }
}

impl Front {
    /// Whether the line gives a limit a second time, or a value outside its range.
    pub fn is_bad_limit(&self, line: &Form) -> bool
        ensures { (before : List Form) → KnowsFront self.now before → result ≡ is_bad_limit before line.now }
    {
        match line {
            Form::Limit {
                name,
                value: Some(value),
            } => self.is_bad_value(find_limit(name.bytes()), *value),
            _ => false,
        }
    }

    fn is_bad_value(&self, limit: Option<Limit>, value: u64) -> bool
        ensures { (before : List Form) → KnowsFront self.now before
            → result ≡ (not (is_within limit value) || list_any (gives limit) before) }
    {
        match limit {
            Some(limit) => !is_allowed(limit, value) || self.given[place(limit)],
            None => false,
        }
    }

    /// The front with one more line.
    pub fn pass(&mut self, line: &Form)
        ensures { (before : List Form) → KnowsFront self.old before → KnowsFront self.new (before ++ line.now ∷ []) }
    {
        match line {
            Form::Silent => {}
            Form::Limit { name, .. } => self.give(find_limit(name.bytes())),
            Form::Phase => {
                self.limits_alone = false;
                self.has_phase = true;
            }
            _ => self.limits_alone = false,
        }
    }

    fn give(&mut self, limit: Option<Limit>)
        ensures alone { self.new.limits_alone ≡ self.old.limits_alone }
        ensures phase { self.new.has_phase ≡ self.old.has_phase }
        ensures given { (one : Limit)
            → get_or self.new.given (order_of one) false ≡ (get_or self.old.given (order_of one) false
            || same_limit (Some one) limit) }
        ensures limits { length self.new.given ≡ length self.old.given }
    {
        if let Some(limit) = limit {
            self.given[place(limit)] = true;
        }
    }
}

// The place of a limit in their order.
fn place(limit: Limit) -> usize
    ensures value { result ≡ order_of limit }
    ensures low { result < 13 }
{
    limit as usize
}

fn is_allowed(limit: Limit, value: u64) -> bool
    ensures { result ≡ is_within (Some limit) value }
{
    limit.allows(value)
}
