//! A list that is shared by all who have it.
ghost use Rattle.std.specs.Prelude.{◌≡◌, ◌==◌, length, IfOk};
ghost use Rattle.ov_base.specs.Exact.{lists_same};
ghost use Rattle.ov_base.specs.Lemmas.{lists_same-per, lists_same-equiv, lists_same-exact};

use crate::memory::Memory;
use crate::plain::Plain;
use std::alloc::Global;
use std::fmt;
use std::fmt::{Debug, Formatter, Write};
use std::marker::Model;
use std::sync::Arc;

/// A list of items that no one changes any more. A copy is one more owner of the same items, whatever their number. Contracts see
/// the list and nothing else.
#[derive(Drop)]
pub struct Shared<T> {
    items: Arc<Vec<T>>,
}

impl<T> Model for Shared<T> {
    ghost use Rattle.std.specs.Prelude.{List};
    ghost use Rattle.std.specs.Coded.{coded_list};
    ghost use Rattle.std.specs.Arc.{arc_value};

    ghost Value = { List T };

    ghost coded = { coded_list T.code };

    ghost view = { λ s. (arc_value s.items).items };
}

impl<T> Shared<T> {
    /// The list of these items. The only error is out of memory, and then they are dropped.
    pub fn of(items: Vec<T>) -> Result<Shared<T>, Memory>
    where
        T: Drop,
        ensures { IfOk result (λ s. s ≡ items.items) }
    {
        let alloc = *items.allocator();
        Ok(Shared {
            items: Arc::new(alloc, items)?,
        })
    }

    /// The items.
    pub fn as_slice(&self) -> &[T]
        ensures { result.now ≡ self.now }
    {
        (*self.items).as_slice()
    }

    /// How many items there are.
    pub fn len(&self) -> usize
        ensures { result ≡ length self.now }
    {
        self.as_slice().len()
    }

    /// The allocator of its items. Contracts do not see allocators.
    pub fn allocator(&self) -> Global {
        *(*self.items).allocator()
    }

    /// Whether there is no item.
    pub fn is_empty(&self) -> bool
        ensures { result ≡ (length self.now == 0) }
    {
        self.as_slice().is_empty()
    }
}

impl<T: Debug> Debug for Shared<T> {
    fn fmt<W: Write>(&self, f: &mut Formatter<W>) -> fmt::Result {
        f.debug_list().slice(self.as_slice()).finish()
    }
}

impl<T: PartialEq> PartialEq for Shared<T> {
    ghost eq = { lists_same T.eq };

    ghost laws = { lists_same-per T.laws };

    #[tactic(auto, unfolding(crate::specs::Exact::lists_same))]
    fn eq(&self, other: &Self) -> bool {
        self.as_slice() == other.as_slice()
    }
}

impl<T: Eq> Eq for Shared<T> {
    ghost laws = { lists_same-equiv T.Eq.laws };
}

impl<T: Plain> Plain for Shared<T> {
    ghost exact = { lists_same-exact T.PartialEq.eq T.exact };

    /// One more owner of the items: nothing is copied.
    fn copy(&self) -> Result<Self, Memory> {
        Ok(Shared {
            items: Arc::try_clone(&self.items)?,
        })
    }
}
