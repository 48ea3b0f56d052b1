//! The lines behind the first phase, each read once: the same line again is known by its bytes.

ghost use Rattle.std.specs.Prelude.{◌≡◌, ◌<◌, ◌&&◌, ◌||◌, ◌++◌, ◌∷◌, [], nat_lt, length, slice_get, true, IfSome, Some, OnOk};
ghost use Rattle.pfs_script.specs.KnownLines.{IsAt};

use crate::forms::Form;
use crate::texts::Text;
use pfs_classes::{ClassRef, NoMemory};
use std::alloc::Global;
use std::collections::HashMap;

/// How many lines are kept before those alone are that start an event of a class, which are the dearest to read.
const MANY_LINES: usize = 4096;

/// A line and what it says.
#[derive(Drop)]
pub struct KnownLine<'a> {
    pub text: Text<'a>,
    pub form: Form<'a>,
    /// What its class stands for.
    pub class: Option<ClassRef>,
    /// The number of its table, or the place of its statement's digest text.
    pub number: Option<usize>,
}

/// Such lines, each at its place. A line is often followed by the same line as the last time, so that one is tried
/// first; where it isn't, the line is looked up by its bytes. What both give is compared with the bytes.
#[derive(Drop)]
pub struct KnownLines<'a> {
    pub lines: Vec<KnownLine<'a>>,
    /// The place of a line by its bytes.
    places: HashMap<Text<'a>, usize>,
    /// By the place of a line that of the line which followed it.
    next: Vec<usize>,
    /// The place of the line that was asked for last.
    last: usize,
}

impl<'a> KnownLines<'a> {
    /// No line. It takes no memory.
    pub fn none(alloc: Global) -> KnownLines<'a>
        ensures { result.lines.items ≡ [] }
    {
        KnownLines {
            lines: Vec::new(alloc),
            places: HashMap::new(alloc),
            next: Vec::new(alloc),
            last: 0,
        }
    }

    /// The place of the line that has these bytes.
    pub fn find(&mut self, bytes: &'a [u8]) -> Option<usize>
        ensures lines { self.new.lines.items ≡ self.old.lines.items }
        ensures place { IfSome result (IsAt self.old bytes.now) }
    {
        let guess = self.follower();
        let place = if self.is_at(guess, bytes) {
            guess
        } else {
            self.look_up(bytes)?
        };
        self.follow(place);
        Some(place)
    }

    /// The line at a place.
    pub fn line(&self, place: usize) -> &KnownLine<'a>
        requires { place < length self.now.lines.items }
        ensures { slice_get self.now.lines.items place ≡ Some result.now }
    {
        &self.lines[place]
    }

    /// Whether a line is to be kept, which may stand behind a phase's beginning and may start an event of a class.
    pub fn wants(&self, has_phase: bool, starts: bool) -> bool
        ensures { result ≡ (has_phase && (starts || nat_lt (length self.now.lines.items) 4096)) }
    {
        has_phase && (starts || self.lines.len() < MANY_LINES)
    }

    /// Keeps a line.
    pub fn keep(&mut self, line: KnownLine<'a>) -> Result<(), NoMemory>
        ensures { OnOk result (self.new.lines.items ≡ self.old.lines.items ++ line.entry ∷ []) }
    {
        let place = self.lines.len();
        self.places.insert(Text::new(line.text.bytes()), place)?;
        self.next.push(place)?;
        self.lines.push(line)?;
        self.follow(place);
        Ok(())
    }

    // The place of the line that followed the last one before, or some place.
    fn follower(&self) -> usize {
        self.next.get(self.last).copied().unwrap_or(0)
    }

    // Notes which line follows the last one.
    fn follow(&mut self, place: usize)
        ensures lines { self.new.lines.items ≡ self.old.lines.items }
    {
        if self.last < self.next.len() {
            self.next[self.last] = place;
        }
        self.last = place;
    }

    // Whether the line at the place has these bytes.
    fn is_at(&self, place: usize, bytes: &'a [u8]) -> bool
        ensures { result ≡ true → IsAt self.now bytes.now place }
    {
        match self.lines.get(place) {
            Some(line) => line.text == Text::new(bytes),
            None => false,
        }
    }

    // The place of the line that has these bytes, by the bytes.
    fn look_up(&self, bytes: &'a [u8]) -> Option<usize>
        ensures { IfSome result (IsAt self.now bytes.now) }
    {
        let place = *self.places.get(&Text::new(bytes))?;
        if self.is_at(place, bytes) {
            Some(place)
        } else {
            None
        }
    }
}
