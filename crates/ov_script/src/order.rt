//! Where a command stands.
ghost use Rattle.ov_base.specs.Lemmas.{exact_tests};

use ov_base::{Memory, Plain};

/// A command: its session, from 0, and its number in that session, from 1.
#[derive(Clone, Copy, Debug, PartialEq, Eq, Hash)]
pub struct CommandAt {
    pub session: u32,
    pub seq: u32,
}

impl Plain for CommandAt {
    ghost exact = { λ x y h. Prim.grind (exact_tests) };

    fn copy(&self) -> Result<CommandAt, Memory> {
        Ok(*self)
    }
}
