//! Items: functors at their versions. And what replies show.
ghost use Rattle.ov_base.specs.Lemmas.{exact_tests};
ghost use Rattle.ov_functor.specs.Lemmas.Functors.{functor-cases};

use crate::functor::Functor;
use ov_base::{Key, Memory, Plain, Value, Version};

/// The functor of a key at a version, as nodes store it.
#[derive(Debug, PartialEq, Eq, Drop)]
pub struct Item {
    /// The version of the transaction.
    pub version: Version,
    /// The key that is written.
    pub key: Key,
    /// What stands for its value.
    pub functor: Functor,
}

impl Plain for Item {
    ghost exact = { λ x y h. Prim.grind (exact_tests, functor-cases) };

    fn copy(&self) -> Result<Item, Memory> {
        Ok(Item {
            version: self.version,
            key: self.key,
            functor: self.functor.copy()?,
        })
    }
}

/// A key with the value that a reply shows of it.
#[derive(Clone, Copy, Debug, PartialEq, Eq)]
pub struct Shown {
    /// The key.
    pub key: Key,
    /// Its value.
    pub value: Value,
}

impl Plain for Shown {
    ghost exact = { λ x y h. Prim.grind (exact_tests) };

    fn copy(&self) -> Result<Shown, Memory> {
        Ok(*self)
    }
}

/// The value of a key at a version.
#[derive(Clone, Copy, Debug, PartialEq, Eq)]
pub struct Valued {
    /// The version of the item.
    pub version: Version,
    /// Its key.
    pub key: Key,
    /// What its functor gives.
    pub value: Value,
}

impl Plain for Valued {
    ghost exact = { λ x y h. Prim.grind (exact_tests) };

    fn copy(&self) -> Result<Valued, Memory> {
        Ok(*self)
    }
}
