//! What a command waits for.
ghost use Rattle.ov_base.specs.Lemmas.{exact_tests};

use ov_base::{Memory, Plain};

/// A command that has to be known as replied before another one begins: its session, from 0, and its number
/// in that session, from 1 (docs/STORE.md, Sessions).
#[derive(Clone, Copy, Debug, PartialEq, Eq)]
pub struct After {
    pub session: u32,
    pub seq: u32,
}

impl Plain for After {
    ghost exact = { λ x y h. Prim.grind (exact_tests) };

    fn copy(&self) -> Result<After, Memory> {
        Ok(*self)
    }
}
