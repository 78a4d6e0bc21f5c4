//! The names of the variables of a text.
ghost use Rattle.std.specs.Prelude.{◌≡◌, ◌<◌, ◌≤◌, ◌^◌, ◌∷◌, ◌++◌, ◌↔◌, [], Some, length, slice_get, if◌then◌else◌, IsTrue, Contains, IfSome, IfNone, IfOk, OnErr};
ghost use Rattle.trop_text.specs.Name.{is_name};
ghost use Rattle.trop_text.specs.Names.{AreNames, place_of};

use indexmap::IndexSet;
use std::alloc::{AllocError, Global};
use std::marker::Model;

/// Want of memory.
pub type NoMemory = AllocError;

/// The names of variables in the order in which they were first seen, numbered from 0. No name stands twice.
#[derive(Drop)]
pub struct Names {
    texts: IndexSet<String>,
}

impl Model for Names {
    ghost use Rattle.std.specs.Prelude.{List, ℕ, map, true, ◌≡◌};
    ghost use Rattle.std.specs.String.{string_bytes};
    ghost use Rattle.trop_text.specs.Names.{AreNames};

    ghost Value = { List (List ℕ) };

    ghost view = { λ n. map string_bytes n.texts.keys };

    ghost invariant = { λ n. AreNames (map string_bytes n.texts.keys) };
}

impl Names {
    /// No name.
    pub fn new(alloc: Global) -> Names
        ensures { result ≡ [] }
    {
        Names {
            texts: IndexSet::new(alloc),
        }
    }

    /// The number of names.
    pub fn len(&self) -> u32
        ensures count { result ≡ length self.now }
        ensures names { AreNames self.now }
    {
        self.texts.len() as u32
    }

    /// The place of a name, from 0. `None` where it is not in the list.
    pub fn position(&self, name: &str) -> Option<u32>
        ensures place { result ≡ place_of name.now self.now }
        ensures found { IfSome result (λ i. slice_get self.now i ≡ Some name.now) }
        ensures absent { IfNone result (¬ (Contains self.now name.now)) }
    {
        let place = self.texts.get_index_of(name)?;
        Some(place as u32)
    }

    /// The name at a place.
    pub fn name(&self, place: u32) -> &str
        requires { place < length self.now }
        ensures { slice_get self.now place ≡ Some result.now }
    {
        self.texts.as_slice()[place as usize].as_str()
    }

    /// Appends a name and answers `true`, or answers `false` where the name is in the list already, which then stays as
    /// it is. Want of memory leaves the list as it was.
    pub fn push(&mut self, alloc: Global, name: &str) -> Result<bool, NoMemory>
        requires is_name { IsTrue (is_name name.now) }
        requires room { length self.old < 2 ^ 31 }
        ensures added { IfOk result (λ added. IsTrue added ↔ ¬ (Contains self.old name.now)) }
        ensures names { IfOk result (λ added. self.new ≡ (if added then self.old ++ name.now ∷ [] else self.old)) }
        ensures unchanged { OnErr result (self.new ≡ self.old) }
    {
        if self.texts.contains(name) {
            return Ok(false);
        }
        let text = String::from_str(alloc, name)?;
        self.texts.insert(text)?;
        Ok(true)
    }
}
