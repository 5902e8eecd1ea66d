//! Names in the order in which they were added.
ghost use Rattle.std.specs.Prelude.{◌≡◌, ◌≢◌, ◌<◌, ◌↔◌, ◌++◌, [], ◌∷◌, true, false, length, slice_get, position, option_map, is_some, IfOk, OnErr, IsErrOf};
ghost use Rattle.mari_rows.specs.Names.{is_among, place_in, with_name};
ghost use Rattle.mari_units.specs.Names.{is_name};
ghost use Rattle.std.specs.List.{AllPairs};
ghost use Rattle.std.specs.Str.{bytes_eq};

use crate::faults::AddFault;
use indexmap::IndexSet;
use mari_units::{Memory, Name};
use std::alloc::Global;
use std::marker::Model;

/// Names, each once, which contracts see as the list of them in the order in which they were added.
///
/// A name is found, and one is added, in constant time.
pub struct NameIndex {
    names: IndexSet<Vec<u8>>,
}

impl Model for NameIndex {
    ghost use Rattle.std.specs.Prelude.{List, ℕ, map};
    ghost use Rattle.mari_rows.specs.Names.{AreNames};

    ghost Value = { List (List ℕ) };

    ghost view = { λ n. map (λ v. v.items) n.names.keys };

    ghost invariant = { λ n. AreNames (map (λ v. v.items) n.names.keys) };
}

impl Drop for NameIndex {
    fn drop(self) {
        let Self { names: _names } = self;
    }
}

impl NameIndex {
    /// No names.
    pub fn new(alloc: Global) -> Self
        ensures { result ≡ [] }
    {
        NameIndex {
            names: IndexSet::new(alloc),
        }
    }

    /// Puts a new name after the others, and gives its place.
    #[tactic(auto, using(crate::proofs::NameLemmas::name_lemmas))]
    fn push(&mut self, text: Vec<u8>) -> Result<u32, Memory>
        requires room { length self.old < u32.MAX }
        requires new { is_among self.old text.items ≡ false }
        ensures place { IfOk result (λ place. place ≡ length self.old) }
        ensures added { IfOk result (λ place. self.new ≡ self.old ++ text.items ∷ []) }
        ensures err { OnErr result (self.new ≡ self.old) }
    {
        match self.names.insert_full(text) {
            Ok((place, _)) => Ok(place as u32),
            Err(_) => Err(Memory),
        }
    }

    /// Adds a name after the others, and gives its place.
    pub fn add(&mut self, alloc: Global, name: Name) -> Result<u32, AddFault>
        requires { length self.old < u32.MAX }
        ensures place { IfOk result (λ place. place ≡ length self.old) }
        ensures added { IfOk result (λ place. self.new ≡ self.old ++ name ∷ []) }
        ensures repeated { IsErrOf result AddFault.Repeated ↔ (is_among self.old name ≡ true) }
        ensures err { OnErr result (self.new ≡ self.old) }
    {
        if self.contains(name.bytes()) {
            return Err(AddFault::Repeated);
        }
        let Ok(text) = name.bytes().to_vec(alloc) else {
            return Err(AddFault::Memory);
        };
        match self.push(text) {
            Ok(place) => Ok(place),
            Err(_) => Err(AddFault::Memory),
        }
    }

    /// Whether a name is among the names.
    #[tactic(auto, using(crate::proofs::NameLemmas::name_lemmas))]
    fn contains(&self, name: &[u8]) -> bool
        ensures { result ≡ is_among self.now name.now }
    {
        self.names.contains(name)
    }

    /// Puts a name after the others that is none of them, and gives its place.
    pub fn add_new(&mut self, alloc: Global, name: &[u8]) -> Result<u32, Memory>
        requires room { length self.old < u32.MAX }
        requires name { is_name name.now ≡ true }
        requires new { is_among self.old name.now ≡ false }
        ensures place { IfOk result (λ place. place ≡ length self.old) }
        ensures added { IfOk result (λ place. self.new ≡ self.old ++ name.now ∷ []) }
        ensures err { OnErr result (self.new ≡ self.old) }
    {
        self.push(name.to_vec(alloc)?)
    }

    /// The place of a name, which goes after the others where it is new.
    pub fn find_or_add(&mut self, alloc: Global, name: &[u8]) -> Result<u32, Memory>
        requires room { length self.old < u32.MAX }
        requires name { is_name name.now ≡ true }
        ensures place { IfOk result (λ place. place ≡ place_in self.new name.now) }
        ensures names { IfOk result (λ place. self.new ≡ with_name self.old name.now) }
        ensures err { OnErr result (self.new ≡ self.old) }
    {
        if let Some(place) = self.find(name) {
            return Ok(place);
        }
        self.add_new(alloc, name)
    }

    /// The place of a name, counted from 0.
    #[tactic(auto, using(crate::proofs::NameLemmas::name_lemmas))]
    pub fn find(&self, name: &[u8]) -> Option<u32>
        ensures place { result ≡ position (bytes_eq name.now) self.now }
        ensures there { is_some result ≡ is_among self.now name.now }
    {
        match self.names.get_index_of(name) {
            Some(place) => Some(place as u32),
            None => None,
        }
    }

    /// How many names there are.
    pub fn len(&self) -> u32
        ensures len { result ≡ length self.now }
        ensures distinct { AllPairs (λ a b. a ≢ b) self.now }
    {
        self.names.len() as u32
    }

    /// The bytes of the name at a place, counted from 0.
    pub fn name_at(&self, place: u32) -> Option<&[u8]>
        ensures { option_map (λ name. name.now) result ≡ slice_get self.now place }
    {
        match self.names.get_index(place as usize) {
            Some(name) => Some(name.as_slice()),
            None => None,
        }
    }
}
