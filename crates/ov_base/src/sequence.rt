//! A `Vec` that contracts see as a list, for the fields of plain data.
ghost use Rattle.std.specs.Prelude.{◌≡◌, [], ◌∷◌, ◌++◌, ◌==◌, length, IfOk, OnOk, OnErr};
ghost use Rattle.ov_base.specs.Exact.{lists_same};
ghost use Rattle.ov_base.specs.Lemmas.{lists_same-per, lists_same-equiv, lists_same-exact};

use crate::memory::Memory;
use crate::plain::{Plain, copied};
use std::alloc::Global;
use std::marker::Model;

/// A list of items, which contracts see as that list and nothing else. It keeps its allocator.
#[derive(Debug, Drop)]
pub struct Sequence<T> {
    items: Vec<T>,
}

impl<T> Model for Sequence<T> {
    ghost use Rattle.std.specs.Prelude.{List};
    ghost use Rattle.std.specs.Coded.{coded_list};

    ghost Value = { List T };

    ghost coded = { coded_list T.code };

    ghost view = { λ s. s.items.items };
}

impl<T> Sequence<T> {
    /// The empty list. Does not allocate.
    pub fn new(alloc: Global) -> Sequence<T>
        ensures { result ≡ [] }
    {
        Sequence {
            items: Vec::new(alloc),
        }
    }

    /// The empty list, with room for so many items. The only error is out of memory.
    pub fn with_capacity(alloc: Global, items: usize) -> Result<Sequence<T>, Memory>
        ensures { IfOk result (λ s. s ≡ []) }
    {
        Ok(Sequence {
            items: Vec::with_capacity(alloc, items)?,
        })
    }

    /// An empty list of other items, over the same allocator. Does not allocate.
    pub fn empty<U>(&self) -> Sequence<U>
        ensures { result ≡ [] }
    {
        Sequence {
            items: Vec::new(*self.items.allocator()),
        }
    }

    /// The list of these items. Does not allocate.
    pub fn from_vec(items: Vec<T>) -> Sequence<T>
        ensures { result ≡ items.items }
    {
        Sequence { items }
    }

    /// The items, as a `Vec` again. Does not allocate.
    pub fn into_vec(self) -> Vec<T>
        ensures { result.items ≡ self }
    {
        self.items
    }

    /// The items.
    pub fn as_slice(&self) -> &[T]
        ensures { result.now ≡ self.now }
    {
        self.items.as_slice()
    }

    /// How many items there are.
    pub fn len(&self) -> usize
        ensures { result ≡ length self.now }
    {
        self.items.as_slice().len()
    }

    /// Whether there is no item.
    pub fn is_empty(&self) -> bool
        ensures { result ≡ (length self.now == 0) }
    {
        self.items.as_slice().is_empty()
    }

    /// Adds an item at the end. On an error the list is as before, and the item is dropped.
    pub fn push(&mut self, item: T) -> Result<(), Memory>
    where
        T: Drop,
        ensures ok { OnOk result (self.new ≡ self.old ++ item ∷ []) }
        ensures err { OnErr result (self.new ≡ self.old) }
    {
        match self.items.push(item) {
            Ok(()) => Ok(()),
            Err(_) => Err(Memory),
        }
    }
}

impl<T: PartialEq> PartialEq for Sequence<T> {
    ghost eq = { lists_same T.eq };

    ghost laws = { lists_same-per T.laws };

    #[tactic(auto, unfolding(crate::specs::Exact::lists_same))]
    fn eq(&self, other: &Self) -> bool {
        self.as_slice() == other.as_slice()
    }
}

impl<T: Eq> Eq for Sequence<T> {
    ghost laws = { lists_same-equiv T.Eq.laws };
}

impl<T: Plain + Drop> Plain for Sequence<T> {
    ghost exact = { lists_same-exact T.PartialEq.eq T.exact };

    fn copy(&self) -> Result<Self, Memory> {
        Ok(Sequence::from_vec(copied(*self.items.allocator(), self.as_slice())?))
    }
}
