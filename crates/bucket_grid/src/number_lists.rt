ghost use Rattle.std.specs.Prelude.{◌≡◌, ◌∷◌, ◌++◌, [], OnErr, OnOk, slice_get};
ghost use Rattle.std.specs.Option.{option_map};

use grid_base::next_number;
use span_pool::span_in;
use std::alloc::{AllocError, Global};
use std::marker::Model;

/// Lists of numbers, all of which stand in one `Vec`, list after list.
#[derive(Drop)]
pub struct NumberLists {
    numbers: Vec<u32>,
    // where each list ends in `numbers`
    ends: Vec<u32>,
}

impl Model for NumberLists {
    ghost use Rattle.std.specs.Prelude.{List, ℕ, length};
    ghost use Rattle.span_pool.specs.SpanPool.{CutsUp, cut};

    ghost Value = { List (List ℕ) };

    ghost view = { λ l. cut 0 l.ends.items l.numbers.items };

    ghost invariant = { λ l. CutsUp 0 l.ends.items (length l.numbers.items) };
}

impl NumberLists {
    /// No lists. Takes no memory.
    pub fn new(alloc: Global) -> NumberLists
        ensures empty { result ≡ [] }
    {
        NumberLists {
            numbers: Vec::new(alloc),
            ends: Vec::new(alloc),
        }
    }

    /// Adds a list.
    ///
    /// Errors: `AllocError` for want of memory, or where all numbers are more than a `u32` counts.
    pub fn push(&mut self, list: &[u32]) -> Result<(), AllocError>
        ensures ok { OnOk result (self.new ≡ self.old ++ list.now ∷ []) }
        ensures err { OnErr result (self.new ≡ self.old) }
    {
        let end = next_number(self.numbers.len().saturating_add(list.len()))?;
        self.ends.reserve(1)?;
        self.numbers.extend_from_slice(list)?;
        self.ends.push(end).unwrap();
        Ok(())
    }

    /// The list at a place, counted from 0; `None` exactly where there is none.
    pub fn get(&self, place: usize) -> Option<&[u32]>
        ensures lookup { option_map (λ list. list.now) result ≡ slice_get self.now place }
    {
        if place >= self.ends.len() {
            return None;
        }
        Some(span_in(&self.numbers, &self.ends, place))
    }

    /// Gives back the memory that there is to spare.
    pub fn fit(&mut self)
        ensures same { self.new ≡ self.old }
    {
        self.numbers.shrink_to_fit();
        self.ends.shrink_to_fit();
    }
}
