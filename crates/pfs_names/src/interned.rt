//! A list of texts in the order of their first interning, and a look-up from each text to its place.
ghost use Rattle.std.specs.Prelude.{◌≡◌, ◌+◌, ◌<◌, ◌≤◌, ℕ, List, [], ◌∷◌, ◌++◌, ◌↔◌, length, map, Contains, IsOk, IfOk, OnOk, OnErr, MatchOption, slice_get, string_bytes};
ghost use Rattle.pfs_names.specs.declared.interned.NameFault.TheVariants;
ghost use Rattle.pfs_names.specs.InternedTexts.{AreNames, Interns};

use crate::NoMemory;
use std::alloc::Global;
use std::collections::BTreeMap;
use std::marker::Model;
use thiserror::Error;

// The most bytes of a text.
const MOST_BYTES: usize = 1024;

// The most texts.
const MOST_TEXTS: usize = 65536;

/// The id of a text: the number of texts that were interned before it.
#[derive(Clone, Copy, Debug, PartialEq, Eq, PartialOrd, Ord)]
pub struct NameId(pub u64);

impl Model for NameId {
    ghost Value = { ℕ };

    ghost view = { λ id. id.0 };

    ghost inverse = { λ n. record { 0 = n } };
}

/// Why a text was not interned.
#[derive(Clone, Copy, Debug, PartialEq, Eq, Error)]
pub enum NameFault {
    /// The text is new, and 65,536 texts are there.
    #[error("there are too many names")]
    TooMany,
    /// The text has more than 1,024 bytes. This is tested first.
    #[error("the name is too long")]
    TooLong,
    /// Memory ran out.
    #[error("out of memory")]
    NoMemory,
}

impl From<NoMemory> for NameFault {
    ghost from_gives = { λ _ fault. fault ≡ TheVariants.NoMemory };

    fn from(_: NoMemory) -> NameFault {
        NameFault::NoMemory
    }
}

/// Distinct texts, each with the id that it got when it was first interned.
#[derive(Drop)]
pub struct Names {
    texts: Vec<String>,
    ids: BTreeMap<String, NameId>,
}

impl Model for Names {
    ghost use Rattle.std.specs.Prelude.{ℕ, List, map, string_bytes};
    ghost use Rattle.pfs_names.specs.InternedTexts.{Agrees};

    ghost Value = { List (List ℕ) };

    ghost view = { λ n. map string_bytes n.texts.items };

    ghost invariant = { λ n. Agrees n.texts.items n.ids };
}

impl Names {
    /// No text. It takes no memory, and keeps the allocator for later texts.
    pub fn new(alloc: Global) -> Names
        ensures { result ≡ [] }
    {
        Names {
            texts: Vec::new(alloc),
            ids: BTreeMap::new(alloc),
        }
    }

    /// The number of texts. An id is of these names exactly where it is below this number.
    pub fn count(&self) -> u64
        ensures number { result ≡ length self.now }
        ensures names { AreNames self.now }
    {
        self.texts.len() as u64
    }

    /// The text with this id.
    pub fn get(&self, id: NameId) -> &str
        requires { id < length self.now }
        ensures { slice_get self.now id ≡ Some result.now }
    {
        let text = &self.texts[id.0 as usize];
        text.as_str()
    }

    /// The id of a text, or None exactly where the text was never interned.
    pub fn find(&self, text: &str) -> Option<NameId>
        ensures { MatchOption result (¬ Contains self.now text.now) (λ id. slice_get self.now id ≡ Some text.now) }
    {
        self.ids.get(text).copied()
    }

    /// The id of the text, which is new where the text is new. A refusal changes nothing.
    pub fn intern(&mut self, text: &str) -> Result<NameId, NameFault>
        ensures id { IfOk result (λ id. slice_get self.new id ≡ Some text.now) }
        ensures ok { OnOk result (Interns self.old self.new text.now) }
        ensures known { Contains self.old text.now → IsOk result }
        ensures too_long { (result ≡ Err NameFault.TooLong) ↔ (1024 < length text.now) }
        ensures too_many { (result ≡ Err NameFault.TooMany)
            ↔ ((length text.now ≤ 1024) × (¬ Contains self.old text.now) × (length self.old ≡ 65536)) }
        ensures err { OnErr result (self.new ≡ self.old) }
        // Ids that were given before keep their texts.
        ensures kept { (id : ℕ) → id < length self.old → slice_get self.new id ≡ slice_get self.old id }
        ensures grows { length self.old ≤ length self.new }
        ensures by_one { length self.new ≤ length self.old + 1 }
        ensures names { AreNames self.new }
    {
        let count = self.count();
        if text.len() > MOST_BYTES {
            return Err(NameFault::TooLong);
        }
        if let Some(id) = self.find(text) {
            return Ok(id);
        }
        if count == MOST_TEXTS as u64 {
            return Err(NameFault::TooMany);
        }
        let id = self.add(text)?;
        Ok(id)
    }

    // Puts a new text at the end. What may want memory comes before the first change.
    fn add(&mut self, text: &str) -> Result<NameId, NoMemory>
        requires short { length text.now ≤ 1024 }
        requires absent { ¬ Contains self.old text.now }
        requires room { length self.old < 65536 }
        ensures id { IfOk result (λ id. id ≡ length self.old) }
        ensures ok { OnOk result (self.new ≡ self.old ++ text.now ∷ []) }
        ensures names { OnOk result (AreNames self.new) }
        ensures err { OnErr result (self.new ≡ self.old) }
    {
        let alloc = *self.texts.allocator();
        let id = NameId(self.texts.len() as u64);
        let kept = String::from_str(alloc, text)?;
        let key = String::from_str(alloc, text)?;
        self.texts.reserve(1)?;
        self.ids.insert(key, id)?;
        self.texts.push_reserved(kept);
        Ok(id)
    }
}

#[cfg(test)]
mod tests {
    use super::*;
    use std::test::Fail;

    // The same id twice, the next id for the next text, and the longest text.
    #[test]
    fn interns(rt: HostRuntime) -> Result<(), Fail> {
        let mut names = Names::new(rt.alloc());
        assert_eq!(rt; names.intern("a")?, NameId(0));
        assert_eq!(rt; names.intern("a")?, NameId(0));
        assert_eq!(rt; names.intern("b")?, NameId(1));
        assert_eq!(rt; names.count(), 2);
        assert_eq!(rt; names.get(NameId(1)), "b");
        assert_eq!(rt; names.find("b"), Some(NameId(1)));
        assert_eq!(rt; names.find("c"), None);
        let long = "0123456789abcdef".repeat(rt.alloc(), 64)?;
        assert_eq!(rt; names.intern(long.as_str())?, NameId(2));
        let longer = format!(in rt.alloc(); "{long}x")?;
        assert_eq!(rt; names.intern(longer.as_str()), Err(NameFault::TooLong));
        Ok(())
    }
}
