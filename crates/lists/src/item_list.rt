ghost use Rattle.std.specs.Prelude.{◌≡◌, ◌≤◌, ◌<◌, ◌-◌, ◌^◌, ◌++◌, ◌∷◌, [], IfErr, IfOk, OnOk, OnErr, length, slice_get, slice_index_or, slice_set};
ghost use Rattle.std.specs.Option.{option_copied};
ghost use Rattle.std.specs.Borrow.{Lends, sem};

use std::alloc::{AllocError, Global};
use std::marker::Model;

/// A list of at most 4,294,967,295 items, counted from 0. Where a crate above keeps a list of this size, it is one of
/// these under the name of its items.
#[derive(Drop)]
pub struct ItemList<T> {
    items: Vec<T>,
}

impl<T> Model for ItemList<T> {
    ghost use Rattle.std.specs.Prelude.{List, ◌<◌, ◌^◌, length};

    ghost Value = { List T };

    ghost view = { λ l. l.items.items };

    ghost invariant = { λ l. length l.items.items < 2 ^ 32 };
}

impl<T> ItemList<T> {
    ghost use Rattle.lists.specs.contracts.item_list.ItemList.{the_row};

    /// How many items there are.
    pub fn len(&self) -> u32
        ensures count { result ≡ length self.now }
    {
        self.items.len() as u32
    }

    /// The item with this number; `None` past the end.
    pub fn get(&self, i: u32) -> Option<&T>
        ensures lookup { option_copied result ≡ slice_get self.now i }
    {
        self.items.get(i as usize)
    }

    /// All items, in order.
    pub fn as_slice(&self) -> &[T]
        ensures all { result.now ≡ self.now }
        ensures few { length self.now < 2 ^ 32 }
    {
        &self.items
    }

    /// The last item, to change: what it is when the loan ends is the last item from then on.
    pub fn last_mut(&mut self) -> &mut T
        requires some { 0 < length self.old }
        ensures* lends { sem 𝓛 (Lends (the_row T.row) T.row self.entry result (slice_set self.old (length self.old - 1))) }
        ensures last { result.now ≡ slice_index_or self.old (length self.old - 1) result.now }
    {
        let last = self.items.len() - 1;
        &mut self.items[last]
    }

    /// The items themselves. Takes no memory.
    pub fn into_vec(self) -> Vec<T>
        ensures all { result.items ≡ self }
        ensures few { length self < 2 ^ 32 }
    {
        self.items
    }
}

impl<T: Drop> ItemList<T> {
    /// No items. Takes no memory.
    pub fn new(alloc: Global) -> ItemList<T>
        ensures empty { result ≡ [] }
    {
        ItemList {
            items: Vec::new(alloc),
        }
    }

    /// No items, and room for `count` of them.
    pub fn with_capacity(alloc: Global, count: usize) -> Result<ItemList<T>, AllocError>
        ensures empty { IfOk result (λ list. list ≡ []) }
    {
        let items = Vec::with_capacity(alloc, count)?;
        Ok(ItemList { items })
    }

    /// These items, which are moved. Takes no memory; fails only where there are more than `u32::MAX`.
    pub fn from_vec(items: Vec<T>) -> Result<ItemList<T>, AllocError>
        ensures same { IfOk result (λ list. list ≡ items.items) }
        ensures many { IfErr result (λ e. 2 ^ 32 ≤ length items.items) }
    {
        if items.len() > u32::MAX as usize {
            return Err(AllocError);
        }
        Ok(ItemList { items })
    }

    /// Adds an item at the end. Fails for want of memory, and where the list is full.
    pub fn push(&mut self, item: T) -> Result<(), AllocError>
        ensures ok { OnOk result (self.new ≡ self.old ++ item ∷ []) }
        ensures err { OnErr result (self.new ≡ self.old) }
    {
        if self.items.len() >= u32::MAX as usize {
            return Err(AllocError);
        }
        Ok(self.items.push(item)?)
    }
}

impl<T: Copy + Drop> ItemList<T> {
    /// These items, which are copied. Fails for want of memory, and where there are more than `u32::MAX`.
    pub fn of(alloc: Global, items: &[T]) -> Result<ItemList<T>, AllocError>
        ensures same { IfOk result (λ list. list ≡ items.now) }
    {
        if items.len() > u32::MAX as usize {
            return Err(AllocError);
        }
        Ok(ItemList {
            items: Vec::from_slice(alloc, items)?,
        })
    }

    /// Lets all items go, and keeps the room that they had.
    pub fn clear(&mut self)
        ensures empty { self.new ≡ [] }
    {
        self.items.clear();
    }

    /// Adds all items of a slice at the end. Fails for want of memory, and where the list would be too full.
    pub fn append(&mut self, items: &[T]) -> Result<(), AllocError>
        ensures ok { OnOk result (self.new ≡ self.old ++ items.now) }
        ensures err { OnErr result (self.new ≡ self.old) }
    {
        if items.len() > u32::MAX as usize - self.items.len() {
            return Err(AllocError);
        }
        self.items.extend_from_slice(items)
    }
}
