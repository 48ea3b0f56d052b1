//! What the lines before the first phase make: names, classes, limits and opening flags.

ghost use Rattle.std.specs.Prelude.{◌≡◌, ◌<◌, ◌≤◌, ◌++◌, ◌∷◌, [], length, false, List, ℕ, Contains, None, Some, slice_get, MatchOption, IfOk, OnOk, OnErr, is_some, map};
ghost use Rattle.std.specs.Str.{IsUtf8};
ghost use Rattle.pfs_rows.specs.Limits.{AreInRange};
ghost use Rattle.pfs_classes.specs.Kinds.{Fits, is_fixed};
ghost use Rattle.pfs_classes.specs.Registry.{is_given, registered, text_of};
ghost use Rattle.pfs_classes.specs.Settings.{ComesFrom};
ghost use Rattle.std.specs.List.{fold};
ghost use Rattle.pfs_names.specs.InternedTexts.{id_of, interned};
ghost use Rattle.pfs_script.specs.SessionNames.{head_named};
ghost use Rattle.pfs_script.specs.Drafts.{with_owner};
ghost use Rattle.pfs_script.specs.declared.forms.Form.{Form};
ghost use Rattle.pfs_script.specs.Headings.{named_limit, named_consumer, set_consumer, naming_under, naming_in, with_class, with_flags_like, head_with, head_of, is_known, resolved, MayCome, StandsIn, IsAllowed, limited};

use crate::drafts::Owner;
use crate::forms::{Form, Number};
use crate::likes::set_like;
use pfs_classes::laws::{more_names, one_kind};
use pfs_classes::{ClassFault, ClassRef, Classes, DigestList, Kind, NoMemory, Setting, TableList};
use pfs_consumers::{Consumer, Flags};
use pfs_names::{NameId, Names};
use pfs_rows::{Limit, Limits};
use std::alloc::{AllocError, Global};
use std::marker::Model;
use std::str::from_utf8;

/// What the lines so far fix: the names, the classes under all limits so far, the limits and the
/// opening flags of the consumers.
#[derive(Drop)]
pub struct Heading {
    names: Names,
    classes: Classes,
    limits: Limits,
    consumers: Flags,
}

impl Model for Heading {
    ghost use Rattle.pfs_script.specs.Headings.{Head, IsSound};

    ghost Value = { Head };

    ghost view = { λ h. record { names = h.names; classes = h.classes; limits = h.limits; consumers = h.consumers.0 } };

    ghost invariant = { λ h. IsSound (record {
      names = h.names;
      classes = h.classes;
      limits = h.limits;
      consumers = h.consumers.0;
    }) };
}

impl Heading {
    /// What no line fixes: the built-in classes, and the limits and flags that are there where a
    /// script gives none.
    pub fn begin(alloc: Global) -> Result<Heading, NoMemory>
        ensures { IfOk result (λ heading. heading ≡ head_of []) }
    {
        Heading::under(alloc, Limits::opening(), Flags::OPENING)
    }

    /// Takes one more line, which has a place behind those so far: a `limit` in its range behind
    /// silent lines and limits alone, a `class` that is new and of a kind that a script may add to.
    /// A limit makes names and classes anew under it. An `instrument` line sets each class that is
    /// there by then and whose name is like its pattern. Lines of other forms fix nothing here.
    pub fn pass(&mut self, alloc: Global, line: &Form) -> Result<(), NoMemory>
        requires { MayCome self.old line.now }
        ensures { OnOk result ((before : List Form) → StandsIn before line.now → self.old ≡ head_of before
            → self.new ≡ head_of (before ++ line.now ∷ [])) }
    {
        match line {
            Form::Limit { name, value } => self.pass_limit(alloc, name.bytes(), *value),
            Form::Class {
                name,
                kind,
                enabled,
                timed,
            } => self.register(name.bytes(), *kind, *enabled, *timed),
            Form::Consumer { name, on } => {
                self.switch(name.bytes(), *on);
                Ok(())
            }
            Form::Instrument {
                pattern,
                enabled,
                timed,
            } => {
                self.instrument(pattern.bytes(), *enabled, *timed);
                Ok(())
            }
            _ => Ok(()),
        }
    }

    /// Whether the name is a built-in class's, or one that a `class` line gave, though the class
    /// may be lost.
    pub fn is_known(&self, name: &[u8]) -> bool
        ensures value { result ≡ is_some (resolved self.now name.now) }
        ensures lines { (lines : List Form) → self.now ≡ head_of lines → result ≡ is_known lines name.now }
    {
        self.find(name).is_some()
    }

    /// What the name stands for; none exactly where it isn't known.
    pub fn find(&self, name: &[u8]) -> Option<ClassRef>
        ensures value { result ≡ resolved self.now name.now }
        ensures known { (lines : List Form) → self.now ≡ head_of lines → is_some result ≡ is_known lines name.now }
    {
        self.look_up(name)
    }

    fn look_up(&self, name: &[u8]) -> Option<ClassRef>
        ensures { result ≡ resolved self.now name.now }
    {
        let id = find_name(&self.names, name)?;
        self.classes.find(id)
    }

    /// How many digest texts are kept at most.
    pub fn most_digests(&self) -> u64
        ensures { result ≡ self.now.limits.digests }
    {
        self.limits.digests
    }

    /// The setting that these lines fix, with these tables and digest texts.
    pub fn into_setting(self, tables: TableList, digests: DigestList) -> Setting
        requires few_tables { length tables ≤ 64 }
        requires few_digests { length digests ≤ self.limits.digests }
        ensures names { result.names ≡ self.names }
        ensures classes { result.classes ≡ self.classes }
        ensures tables { result.tables ≡ tables }
        ensures digests { result.digests ≡ digests }
        ensures limits { result.limits ≡ self.limits }
        ensures consumers { result.consumers ≡ self.consumers }
    {
        Setting::new(
            self.names,
            self.classes,
            tables,
            digests,
            self.limits,
            self.consumers.0,
        )
    }

    /// Interns the users and hosts of these owners behind the names that are there, in their order. What
    /// stands for a class stays.
    pub fn name_owners(&mut self, owners: &[Owner]) -> Result<(), NoMemory>
        ensures names { OnOk result (self.new ≡ head_named self.old (fold with_owner self.old.names owners.now)) }
        ensures same { OnOk result ((name : List ℕ) → resolved self.new name ≡ resolved self.old name) }
    {
        for owner in owners {
            self.name_owner(owner)?;
        }
        Ok(())
    }

    /// The id of a name; where it isn't there, that of the next one to come.
    pub fn name_id(&self, name: &str) -> NameId
        ensures { result ≡ id_of self.now.names name.now }
    {
        match self.names.find(name) {
            Some(id) => id,
            None => NameId(self.names.count()),
        }
    }

    // Interns the user and the host of one owner.
    fn name_owner(&mut self, owner: &Owner) -> Result<(), NoMemory>
        ensures names { OnOk result (self.new ≡ head_named self.old (with_owner self.old.names owner.now)) }
        ensures same { OnOk result ((name : List ℕ) → resolved self.new name ≡ resolved self.old name) }
    {
        self.intern(owner.user)?;
        self.intern(owner.host)
    }

    // Interns a name that needs stand for nothing.
    fn intern(&mut self, text: &str) -> Result<(), NoMemory>
        ensures names { OnOk result (self.new ≡ head_named self.old (interned self.old.names text.now)) }
        ensures same { OnOk result ((name : List ℕ) → resolved self.new name ≡ resolved self.old name) }
    {
        more_names();
        let Ok(_) = self.names.intern(text) else {
            return Err(AllocError);
        };
        Ok(())
    }

    // The built-in names and classes under these limits.
    fn under(alloc: Global, limits: Limits, consumers: Flags) -> Result<Heading, NoMemory>
        requires { AreInRange limits }
        ensures { IfOk result (λ heading. heading ≡ head_with (naming_under limits) limits consumers.0) }
    {
        let mut names = Names::new(alloc);
        let classes = Classes::builtin(alloc, &mut names, &limits)?;
        Ok(Heading {
            names,
            classes,
            limits,
            consumers,
        })
    }

    // Makes names and classes anew under the limit; out of memory all is as before.
    fn pass_limit(&mut self, alloc: Global, name: &[u8], value: Number) -> Result<(), NoMemory>
        requires { IsAllowed (named_limit name.now) value }
        ensures ok { OnOk result (self.new ≡ limited self.old (named_limit name.now) value) }
        ensures err { OnErr result (self.new ≡ self.old) }
    {
        let (Some(limit), Some(value)) = (find_limit(name), value) else {
            return Ok(());
        };
        let mut limits = self.limits;
        limits.set(limit, value);
        *self = Heading::under(alloc, limits, self.consumers)?;
        Ok(())
    }

    // Interns the name and registers its class.
    fn register(
        &mut self,
        name: &[u8],
        kind: Kind,
        enabled: bool,
        timed: bool,
    ) -> Result<(), NoMemory>
        requires fits { Fits name.now kind }
        requires ordinary { is_fixed kind ≡ false }
        requires fresh { resolved self.old name.now ≡ None }
        ensures { OnOk result (self.new ≡ head_with (with_class (naming_in self.old) name.now kind enabled timed)
            self.old.limits self.old.consumers) }
    {
        more_names();
        let Ok(text) = from_utf8(name) else {
            unreachable!();
        };
        let Ok(id) = self.names.intern(text) else {
            return Err(AllocError);
        };
        add_class(&mut self.classes, &self.names, id, kind, enabled, timed)
    }

    // Sets the flag of the named consumer.
    fn switch(&mut self, name: &[u8], on: bool)
        ensures { self.new ≡ record self.old
            { consumers = set_consumer (named_consumer name.now) on self.old.consumers } }
    {
        if let Some(consumer) = find_consumer(name) {
            self.consumers.set(consumer, on);
        }
    }

    // Sets the classes whose names are like the pattern.
    fn instrument(&mut self, pattern: &[u8], enabled: bool, timed: bool)
        ensures { self.new ≡ head_with (with_flags_like (naming_in self.old) pattern.now enabled timed)
            self.old.limits self.old.consumers }
    {
        set_like(&mut self.classes, &self.names, pattern, enabled, timed);
    }
}

// The id of a text among names that are each UTF-8.
fn find_name(names: &Names, name: &[u8]) -> Option<NameId>
    requires { (text : List ℕ) → Contains names.now text → IsUtf8 text }
    ensures { MatchOption result (¬ Contains names.now name.now) (λ id. slice_get names.now id ≡ Some name.now) }
{
    let Ok(text) = from_utf8(name) else {
        return None;
    };
    names.find(text)
}

// Registers a class, or loses it where its kind stands at its limit.
fn add_class(
    classes: &mut Classes,
    names: &Names,
    name: NameId,
    kind: Kind,
    enabled: bool,
    timed: bool,
) -> Result<(), NoMemory>
    requires of_names { name < length names.now }
    requires fits { Fits (text_of names.now name) kind }
    requires ordinary { is_fixed kind ≡ false }
    requires fresh { is_given classes.old name ≡ false }
    ensures ok { OnOk result (classes.new ≡ registered classes.old (record {
      name = name;
      kind = kind;
      enabled = enabled;
      timed = timed;
    })) }
    ensures err { OnErr result (classes.new ≡ classes.old) }
    ensures come { ComesFrom names.now classes.old → ComesFrom names.now classes.new }
{
    one_kind();
    match classes.register(names, name, enabled, timed) {
        Ok(_) => Ok(()),
        Err(ClassFault::NoMemory) => Err(AllocError),
        Err(ClassFault::BadName) => unreachable!(),
        Err(ClassFault::Duplicate) => unreachable!(),
    }
}

/// The limit of that name; none where no limit has it.
pub fn find_limit(name: &[u8]) -> Option<Limit>
    ensures { result ≡ named_limit name.now }
{
    Limit::find(name)
}

/// The consumer of that name; none where no consumer has it.
pub fn find_consumer(name: &[u8]) -> Option<Consumer>
    ensures { result ≡ named_consumer name.now }
{
    Consumer::find(name)
}
