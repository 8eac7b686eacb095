ghost use Rattle.std.specs.Prelude.{◌≡◌, [], OnOk, OnErr, IfOk, not, position, length, ◌≤◌};
ghost use Rattle.std.specs.List.{IsDistinct, list_any, position_or_len};
ghost use Rattle.std.specs.Str.{bytes_eq};
ghost use Rattle.indexmap.specs.IndexSet.{insert_key};

use indexmap::IndexSet;
use std::alloc::{AllocError, Global};
use std::marker::Model;
use text_core::NameList;

/// Names in order of first appearance, each once, with the place of each, counted from 0. There are 4,294,967,295 at
/// most.
#[derive(Drop)]
pub struct NameSet {
    names: IndexSet<String>,
}

impl Model for NameSet {
    ghost use Rattle.std.specs.Prelude.{List, ℕ, map, ◌<◌, ◌^◌, length, string_bytes};

    ghost Value = { List (List ℕ) };

    ghost view = { λ s. map string_bytes s.names.keys };

    ghost invariant = { λ s. length s.names.keys < 2 ^ 32 };
}

impl NameSet {
    /// No names. Takes no memory.
    pub fn new(alloc: Global) -> NameSet
        ensures empty { result ≡ [] }
        ensures distinct { IsDistinct bytes_eq result }
    {
        NameSet {
            names: IndexSet::new(alloc),
        }
    }

    /// The names of a list, which are distinct.
    ///
    /// Errors: `AllocError` for want of memory.
    pub fn of(alloc: Global, names: &NameList) -> Result<NameSet, AllocError>
        requires distinct { IsDistinct bytes_eq names.now }
        ensures all { IfOk result (λ s. s ≡ names.now) }
    {
        let mut set = NameSet::new(alloc);
        for name in names.as_slice() {
            set.add(alloc, name.as_str())?;
        }
        Ok(set)
    }

    /// Adds a name that is new, after the others, and says whether it was.
    ///
    /// Errors: `AllocError` for want of memory, or where the set is full; then all is as before.
    pub fn add(&mut self, alloc: Global, name: &str) -> Result<bool, AllocError>
        ensures ok { OnOk result (self.new ≡ insert_key bytes_eq self.old name.now) }
        ensures added { IfOk result (λ added. added ≡ not (list_any (bytes_eq name.now) self.old)) }
        ensures distinct { OnOk result (IsDistinct bytes_eq self.new) }
        ensures err { OnErr result (self.new ≡ self.old) }
    {
        if self.names.len() >= u32::MAX as usize {
            return Err(AllocError);
        }
        let own = String::from_str(alloc, name)?;
        let (_, added) = self.names.insert_full(own)?;
        Ok(added)
    }

    /// How many names there are.
    pub fn len(&self) -> u32
        ensures count { result ≡ length self.now }
    {
        self.names.len() as u32
    }

    /// Whether it is one of the names.
    pub fn has(&self, name: &str) -> bool
        ensures found { result ≡ list_any (bytes_eq name.now) self.now }
    {
        self.names.contains(name)
    }

    /// The place of a name, counted from 0, or how many names there are where it is none of them.
    pub fn place_or_end(&self, name: &str) -> u32
        ensures place { result ≡ position_or_len (bytes_eq name.now) self.now }
        ensures within { result ≤ length self.now }
    {
        match self.names.get_index_of(name) {
            Some(place) => place as u32,
            None => self.len(),
        }
    }
}
