//! The register of classes.

ghost use Rattle.std.specs.Prelude.{◌≡◌, ◌<◌, ◌≤◌, ◌↔◌, ◌+◌, length, Bool, true, false, IsTrue, IfOk, OnOk, OnErr, IfSome, MatchOption, slice_get, [], ◌∷◌, ◌++◌, List, ℕ, count_by, Err};
ghost use Rattle.pfs_classes.specs.declared.kind.Kind.{Kind};
ghost use Rattle.pfs_rows.specs.Limits.{AreInRange};
ghost use Rattle.pfs_classes.specs.Kinds.{Fits, same_kind, is_fixed, room_of};
ghost use Rattle.pfs_classes.specs.Registry.{IsId, class_at, is_given, RefersTo, count_of, lost_of, has_room, with_flags, text_of, Registers};
ghost use Rattle.pfs_classes.specs.Settings.{ComesFrom};

use crate::{Kind, NoMemory};
use pfs_names::{NameId, Names};
use pfs_rows::Limits;
use std::alloc::Global;
use std::collections::BTreeMap;
use std::marker::Model;
use thiserror::Error;

/// The id of the class `transaction`.
pub const TRANSACTION: u64 = 62;

/// The id of a class: the number of classes registered before it, and 62 for `transaction`.
#[derive(Clone, Copy, Debug, PartialEq, Eq, PartialOrd, Ord)]
pub struct ClassId(pub u64);

impl Model for ClassId {
    ghost use Rattle.std.specs.Prelude.{ℕ};

    ghost Value = { ℕ };

    ghost view = { λ id. id.0 };

    ghost inverse = { λ n. record { 0 = n } };
}

/// A class: the id of its name, its kind and its flags.
#[derive(Clone, Copy, Debug, PartialEq, Eq)]
pub struct Class {
    pub name: NameId,
    pub kind: Kind,
    pub enabled: bool,
    pub timed: bool,
}

/// A name for which its kind had no room.
#[derive(Clone, Copy, Debug, PartialEq, Eq)]
pub struct LostClass {
    pub name: NameId,
    pub kind: Kind,
}

/// What a name stands for: a class, or a class of a kind that had no room for it.
#[derive(Clone, Copy, Debug, PartialEq, Eq)]
pub enum ClassRef {
    Class(ClassId),
    Lost(Kind),
}

/// What became of a class that was to be registered: its id, or, where its kind stands at its
/// limit, the kind's count of lost classes with this one.
#[derive(Clone, Copy, Debug, PartialEq, Eq)]
pub enum Registered {
    Class(ClassId),
    Lost(Kind, u64),
}

/// Why a class was refused.
#[derive(Clone, Copy, Debug, PartialEq, Eq, Error)]
pub enum ClassFault {
    /// The name is no class's. This is tested first.
    #[error("the name is no class's")]
    BadName,
    /// The name was registered or lost before.
    #[error("the class is there already")]
    Duplicate,
    /// Memory ran out.
    #[error("out of memory")]
    NoMemory,
}

impl From<NoMemory> for ClassFault {
    ghost use Rattle.std.specs.Prelude.{◌≡◌};
    ghost use Rattle.pfs_classes.specs.declared.classes.ClassFault.TheVariants;

    ghost from_gives = { λ _ fault. fault ≡ TheVariants.NoMemory };

    fn from(_: NoMemory) -> ClassFault {
        ClassFault::NoMemory
    }
}

/// The registered classes by id, `transaction`, and the names that found no room, under the limits
/// that the kinds have.
#[derive(Drop)]
pub struct Classes {
    limits: Limits,
    classes: Vec<Class>,
    transaction: Class,
    lost: Vec<LostClass>,
    found: BTreeMap<u64, ClassRef>,
}

impl Model for Classes {
    ghost use Rattle.pfs_classes.specs.Registry.{Registry, Keeps};

    ghost Value = { Registry };

    ghost view = { λ a. record {
      limits = a.limits;
      classes = a.classes.items;
      transaction = a.transaction;
      lost = a.lost.items;
    } };

    ghost invariant = { λ a. Keeps (record {
      limits = a.limits;
      classes = a.classes.items;
      transaction = a.transaction;
      lost = a.lost.items;
    }) a.found };
}

impl Classes {
    /// How many classes there are beside `transaction`.
    pub fn count(&self) -> u64
        ensures number { result ≡ length self.now.classes }
        ensures few { result ≤ 62 }
        ensures within { (kind : Kind) → count_of kind self.now.classes ≤ room_of self.now.limits kind }
    {
        self.classes.len() as u64
    }

    /// The class of an id that was given: one below the count, or 62.
    pub fn class(&self, id: ClassId) -> Class
        requires { IsId self.now id }
        ensures { class_at self.now id ≡ Some result }
    {
        if id.0 == TRANSACTION {
            self.transaction
        } else {
            self.classes[id.0 as usize]
        }
    }

    /// Sets the flags of one class, and changes nothing else.
    pub fn set(&mut self, id: ClassId, enabled: bool, timed: bool)
        requires { IsId self.old id }
        ensures value { self.new ≡ with_flags self.old id enabled timed }
        ensures come { (texts : List (List ℕ)) → ComesFrom texts self.old → ComesFrom texts self.new }
    {
        self.set_flags(id, enabled, timed);
    }

    fn set_flags(&mut self, id: ClassId, enabled: bool, timed: bool)
        requires { IsId self.old id }
        ensures { self.new ≡ with_flags self.old id enabled timed }
    {
        if id.0 == TRANSACTION {
            self.transaction.enabled = enabled;
            self.transaction.timed = timed;
        } else {
            let class = &mut self.classes[id.0 as usize];
            class.enabled = enabled;
            class.timed = timed;
        }
    }

    /// What a name stands for; none exactly where it was neither registered nor lost.
    pub fn find(&self, name: NameId) -> Option<ClassRef>
        ensures { MatchOption result (is_given self.now name ≡ false) (λ ref. RefersTo self.now name ref) }
    {
        self.found.get(&name.0).copied()
    }

    /// How many names of the kind found no room.
    pub fn lost(&self, kind: Kind) -> u64
        ensures { result ≡ lost_of self.now kind }
    {
        lost_count(self.lost.as_slice(), kind)
    }

    /// Registers a class whose kind may have classes of a script. A name that is no class's is
    /// refused first, then one that was registered or lost before; a refusal changes nothing.
    /// The class is lost exactly where its kind's number of classes stands at its limit, and then
    /// its name is remembered and the kind's count of lost classes rises by one.
    pub fn register(
        &mut self,
        names: &Names,
        name: NameId,
        enabled: bool,
        timed: bool,
    ) -> Result<Registered, ClassFault>
        requires of_names { name < length names.now }
        requires of_kind { (kind : Kind) → Fits (text_of names.now name) kind → is_fixed kind ≡ false }
        ensures bad_name { (result ≡ Err ClassFault.BadName) ↔ ((kind : Kind) → ¬ Fits (text_of names.now name) kind) }
        ensures duplicate { (result ≡ Err ClassFault.Duplicate)
            ↔ (((kind : Kind) × Fits (text_of names.now name) kind) × (is_given self.old name ≡ true)) }
        ensures ok { IfOk result (λ told. (kind : Kind) × Fits (text_of names.now name) kind
            × (is_given self.old name ≡ false) × Registers self.old self.new (record {
              name = name;
              kind = kind;
              enabled = enabled;
              timed = timed;
            }) told) }
        ensures come { ComesFrom names.now self.old → ComesFrom names.now self.new }
        ensures err { OnErr result (self.new ≡ self.old) }
    {
        let Some(kind) = kind_of(names, name) else {
            return Err(ClassFault::BadName);
        };
        if self.is_known(name) {
            return Err(ClassFault::Duplicate);
        }
        let class = Class {
            name,
            kind,
            enabled,
            timed,
        };
        match self.add(class) {
            Ok(told) => Ok(told),
            Err(_) => Err(ClassFault::NoMemory),
        }
    }

    fn is_known(&self, name: NameId) -> bool
        ensures { result ≡ is_given self.now name }
    {
        self.find(name).is_some()
    }

    // `transaction` alone.
    pub(crate) fn with_transaction(
        alloc: Global,
        limits: Limits,
        transaction: Class,
    ) -> Result<Classes, NoMemory>
        requires { AreInRange limits }
        ensures { IfOk result (λ classes. classes ≡ record {
          limits = limits;
          classes = [];
          transaction = transaction;
          lost = [];
        }) }
    {
        let mut found = BTreeMap::new(alloc);
        let name = transaction.name;
        found.insert(name.0, ClassRef::Class(ClassId(TRANSACTION)))?;
        Ok(Classes {
            limits,
            classes: Vec::new(alloc),
            transaction,
            lost: Vec::new(alloc),
            found,
        })
    }

    // Puts a class into its kind, or its name among the lost ones where the kind is full.
    #[tactic(auto, unfolding(crate::specs::Registry::registered))]
    pub(crate) fn add(&mut self, class: Class) -> Result<Registered, NoMemory>
        ensures ok { IfOk result (λ told. Registers self.old self.new class told) }
        ensures err { OnErr result (self.new ≡ self.old) }
    {
        if self.has_room(class.kind) {
            let id = self.add_class(class)?;
            Ok(Registered::Class(id))
        } else {
            let lost = self.add_lost(class.name, class.kind)?;
            Ok(Registered::Lost(class.kind, lost))
        }
    }

    fn has_room(&self, kind: Kind) -> bool
        ensures { result ≡ has_room self.now kind }
    {
        class_count(self.classes.as_slice(), kind) < kind.room(&self.limits)
    }

    // What may want memory comes before the first change.
    fn add_class(&mut self, class: Class) -> Result<ClassId, NoMemory>
        requires { has_room self.old class.kind ≡ true }
        ensures id { IfOk result (λ id. id ≡ length self.old.classes) }
        ensures ok { OnOk result (self.new ≡ record self.old { classes = self.old.classes ++ class ∷ [] }) }
        ensures err { OnErr result (self.new ≡ self.old) }
    {
        let id = ClassId(self.classes.len() as u64);
        let name = class.name;
        self.classes.reserve(1)?;
        self.found.insert(name.0, ClassRef::Class(id))?;
        self.classes.push_reserved(class);
        Ok(id)
    }

    fn add_lost(&mut self, name: NameId, kind: Kind) -> Result<u64, NoMemory>
        ensures count { IfOk result (λ count. count ≡ lost_of self.old kind + 1) }
        ensures ok { OnOk result (self.new ≡ record self.old {
          lost = self.old.lost ++ record {
            name = name;
            kind = kind;
          } ∷ [];
        }) }
        ensures err { OnErr result (self.new ≡ self.old) }
    {
        let count = lost_count(self.lost.as_slice(), kind) + 1;
        self.lost.reserve(1)?;
        self.found.insert(name.0, ClassRef::Lost(kind))?;
        self.lost.push_reserved(LostClass { name, kind });
        Ok(count)
    }
}

// The kind of the name with this id, or none where the name is no class's.
fn kind_of(names: &Names, name: NameId) -> Option<Kind>
    requires { name < length names.now }
    ensures { MatchOption result ((kind : Kind)
        → ¬ Fits (text_of names.now name) kind) (λ kind. Fits (text_of names.now name) kind) }
{
    Kind::of_name(names.get(name).as_bytes())
}

fn class_count(classes: &[Class], kind: Kind) -> u64
    ensures { result ≡ count_of kind classes.now }
{
    classes.iter().filter(|class| class.kind == kind).count() as u64
}

fn lost_count(lost: &[LostClass], kind: Kind) -> u64
    ensures { result ≡ count_by (λ one. same_kind one.kind kind) lost.now }
{
    lost.iter().filter(|one| one.kind == kind).count() as u64
}
