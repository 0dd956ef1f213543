//! Plain data: `==` is equality of what contracts see, and a copy equals its source.
ghost use Rattle.std.specs.Prelude.{◌≡◌, true, IfOk, IsTrue, ◌↔◌};

use crate::memory::Memory;
use std::alloc::Global;

/// Data whose `==` is equality of what contracts see, and that can be copied.
pub trait Plain: Eq {
    /// A copy, which equals its source. The only error is out of memory.
    fn copy(&self) -> Result<Self, Memory>
        ensures { IfOk result (λ copied. copied ≡ self.now) };

    /// What `==` does not tell apart is equal.
    ghost exact: { (x y : Self) → Self.PartialEq.eq x y ≡ true → x ≡ y };
}

/// Whether the two are equal.
pub fn same<T: Plain>(left: &T, right: &T) -> bool
    ensures { IsTrue result ↔ (left.now ≡ right.now) }
{
    left == right
}

/// Copies of the items, with room for just as many. The only error is out of memory, and then the copies
/// made so far are dropped.
pub fn copied<T: Plain + Drop>(alloc: Global, items: &[T]) -> Result<Vec<T>, Memory>
    ensures { IfOk result (λ copies. copies.items ≡ items.now) }
{
    let mut copies = Vec::with_capacity(alloc, items.len())?;
    for item in items {
        copies.push(item.copy()?)?;
    }
    Ok(copies)
}
