//! The whole script: one pass over the bytes, line by line.

ghost use Rattle.std.specs.Prelude.{◌≡◌, ◌+◌, ◌<◌, ◌^◌, List, [], ◌∷◌, length, ◌==◌, position, MatchOption, IfOk};
ghost use Rattle.pfs_script.specs.declared.forms.Form.{Form};
ghost use Rattle.pfs_script.specs.Forms.{HasItsKind};
ghost use Rattle.pfs_script.specs.Headings.{resolved};
ghost use Rattle.pfs_script.specs.Reasons.{is_bad_statement};
ghost use Rattle.pfs_script.specs.Senses.{class_in, IsFound};
ghost use Rattle.pfs_script.specs.KnownLines.{AreKnown};
ghost use Rattle.pfs_script.specs.Scripts.{parts_of, open_reason};
ghost use Rattle.pfs_script.specs.ReaderAnswers.{IsBehind, Takes, Says, Reads, Gives};

use crate::drafts::Drafts;
use crate::finds::{Finds, Found, is_refused, shown_of};
use crate::forms::{Form, parse_line};
use crate::heading::Heading;
use crate::known::{KnownLine, KnownLines};
use crate::places::{Place, start};
use crate::reasons::Reason;
use crate::saying::block_line;
use crate::scripts::Script;
use crate::texts::Text;
use crate::words::is_clean;
use memchr::memchr;
use pfs_classes::{ClassRef, NoMemory};
use std::alloc::Global;

/// Why bytes were not read as a script.
#[derive(Clone, Copy, Debug, PartialEq, Eq)]
pub enum ScriptFault {
    /// The first faulty line, counted from 1, and its least reason.
    Bad { line: u64, reason: Reason },
    /// Memory ran out.
    NoMemory,
}

impl From<NoMemory> for ScriptFault {
    ghost use Rattle.std.specs.Prelude.{◌≡◌};
    ghost use Rattle.pfs_script.specs.declared.reading.ScriptFault.TheVariants.{NoMemory as ran_out};

    ghost from_gives = { λ _ fault. fault ≡ ran_out };

    fn from(_: NoMemory) -> ScriptFault {
        ScriptFault::NoMemory
    }
}

/// The lines so far: how many they are, what they make, and what all of them amount to.
#[derive(Drop)]
pub struct Reader<'a> {
    pub alloc: Global,
    pub count: usize,
    pub place: Place,
    pub heading: Heading,
    pub finds: Finds,
    pub drafts: Drafts<'a>,
}

impl Script {
    /// The script that these bytes are; else the first faulty line, counted from 1, with its least
    /// reason. The rules are our own; the names, classes and limits are MySQL's. One pass over the bytes.
    pub fn read(alloc: Global, bytes: &[u8]) -> Result<Script, ScriptFault>
        ensures { Gives bytes.now result }
    {
        let reader = match read_lines(alloc, bytes) {
            Ok(reader) => reader,
            Err(fault) => return Err(fault),
        };
        let Reader {
            mut heading,
            finds,
            drafts,
            ..
        } = reader;
        heading.name_owners(drafts.owners.as_slice())?;
        let phases = drafts.into_phases(alloc, &heading)?;
        let Finds { tables, digests } = finds;
        let setting = heading.into_setting(tables, digests);
        Ok(Script { setting, phases })
    }
}

impl<'a> Reader<'a> {
    /// No line.
    fn begin(alloc: Global) -> Result<Reader<'a>, NoMemory>
        ensures { IfOk result (λ reader. IsBehind reader []) }
    {
        Ok(Reader {
            alloc,
            count: 0,
            place: start(),
            heading: Heading::begin(alloc)?,
            finds: Finds::none(alloc),
            drafts: Drafts::none(alloc),
        })
    }

    /// What the class of the event stands for that the line starts; None where it isn't known.
    fn class_of(&self, line: &Form) -> Option<ClassRef>
        ensures { result ≡ class_in (resolved self.now.heading) line.now }
    {
        match line {
            Form::Wait { class } | Form::Stage { class } => self.heading.find(class.bytes()),
            Form::TableWait { class, .. } | Form::Statement { class, .. } => {
                self.heading.find(class.bytes())
            }
            _ => None,
        }
    }

    /// Takes one more line, whose class stands for this one and whose text the lexer may have refused, where it
    /// may follow the lines so far. It gives the number of the line's table, or the place of its digest text.
    fn take(
        &mut self,
        line: &Form<'a>,
        class: Option<ClassRef>,
        refused: bool,
        found: Found,
    ) -> Result<Option<usize>, ScriptFault>
        requires behind { (before : List Form) × IsBehind self.old before }
        requires kind { HasItsKind line.now }
        requires class { class ≡ class_in (resolved self.old.heading) line.now }
        requires refused { refused ≡ is_bad_statement line.now }
        requires found { IsFound self.old.heading.limits.digests self.old.finds line.now found }
        ensures { (before : List Form) → IsBehind self.old before → Takes self.new before line.now result }
    {
        let alloc = self.alloc;
        let is_named = class.is_some();
        self.place.count(line);
        let fault = self
            .place
            .fault(&self.heading, &self.finds, line, is_named, refused);
        if let Some(reason) = fault {
            return Err(bad(self.count, reason));
        }
        let most = self.heading.most_digests();
        let number = self.finds.note(alloc, most, line, found)?;
        let said = block_line(alloc, line, class, number)?;
        self.heading.pass(alloc, line)?;
        self.place.pass(line);
        self.drafts.pass(line, said)?;
        self.count += 1;
        Ok(number)
    }
}

/// Reads one more line, which says something that may follow the lines so far; else its least reason.
fn read_line<'a>(
    reader: &mut Reader<'a>,
    known: &mut KnownLines<'a>,
    bytes: &'a [u8],
) -> Result<(), ScriptFault>
    requires { (before : List Form) × IsBehind reader.old before
        × AreKnown reader.old.heading reader.old.finds before known.old }
    ensures { (before : List Form) → IsBehind reader.old before
        → AreKnown reader.old.heading reader.old.finds before known.old
        → Says reader.new known.new before bytes.now result }
{
    if let Some(place) = known.find(bytes) {
        let line = known.line(place);
        let found = Found::Before(line.number);
        return match reader.take(&line.form, line.class, false, found) {
            Ok(_) => Ok(()),
            Err(fault) => Err(fault),
        };
    }
    read_new(reader, known, bytes)
}

/// The same for a line that isn't known.
fn read_new<'a>(
    reader: &mut Reader<'a>,
    known: &mut KnownLines<'a>,
    bytes: &'a [u8],
) -> Result<(), ScriptFault>
    requires { (before : List Form) × IsBehind reader.old before
        × AreKnown reader.old.heading reader.old.finds before known.old }
    ensures { (before : List Form) → IsBehind reader.old before
        → AreKnown reader.old.heading reader.old.finds before known.old
        → Says reader.new known.new before bytes.now result }
{
    let form = match parse_line(bytes) {
        Ok(form) => form,
        Err(reason) => return Err(bad(reader.count, reason)),
    };
    let class = reader.class_of(&form);
    let shown = shown_of(reader.alloc, &form)?;
    let refused = is_refused(&form, &shown);
    let number = match reader.take(&form, class, refused, Found::Now(shown)) {
        Ok(number) => number,
        Err(fault) => return Err(fault),
    };
    if known.wants(reader.place.front.has_phase, class.is_some()) {
        known.keep(KnownLine {
            text: Text::new(bytes),
            form,
            class,
            number,
        })?;
    }
    Ok(())
}

/// Where the first line feed is.
fn first_line_feed(bytes: &[u8]) -> Option<usize>
    ensures { result ≡ position (λ byte. byte == 10) bytes.now }
{
    memchr(b'\n', bytes)
}

/// The first line without its line feed, and what follows it; None where no line feed is left.
fn split_line(bytes: &[u8]) -> Option<(&[u8], &[u8])>
    ensures { MatchOption result
        (parts_of bytes.now ≡ bytes.now ∷ [])
        (λ line. (parts_of bytes.now ≡ line.0.now ∷ parts_of line.1.now) × (length line.1.now < length bytes.now)) }
{
    match first_line_feed(bytes) {
        Some(at) => Some((&bytes[..at], &bytes[at + 1..])),
        None => None,
    }
}

/// Why a line that isn't ended is faulty.
fn open_reason(bytes: &[u8]) -> Reason
    ensures { result ≡ open_reason bytes.now }
{
    if is_clean(bytes) {
        Reason::OpenLine
    } else {
        Reason::BadByte
    }
}

// The fault of the line behind so many.
fn bad(count: usize, reason: Reason) -> ScriptFault
    requires { count < 2 ^ 63 }
    ensures { result ≡ ScriptFault.Bad (count + 1) reason }
{
    ScriptFault::Bad {
        line: count as u64 + 1,
        reason,
    }
}

/// All lines, in one pass.
fn read_lines(alloc: Global, bytes: &[u8]) -> Result<Reader, ScriptFault>
    ensures { Reads bytes.now result }
{
    let mut reader = Reader::begin(alloc)?;
    let mut known = KnownLines::none(alloc);
    let mut rest = bytes;
    while let Some((line, after)) = split_line(rest) {
        match read_line(&mut reader, &mut known, line) {
            Ok(()) => {}
            Err(fault) => return Err(fault),
        }
        rest = after;
    }
    if !rest.is_empty() {
        return Err(bad(reader.count, open_reason(rest)));
    }
    if reader.place.course.is_in_repeat() {
        return Err(bad(reader.count, Reason::OutOfPlace));
    }
    Ok(reader)
}
