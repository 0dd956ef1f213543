//! The marks of one gateway.
ghost use Rattle.std.specs.Prelude.{◌≡◌};
ghost use Rattle.ov_base.specs.Lemmas.{exact_tests};
ghost use Rattle.ov_gossip.specs.Marks.{greater};

use ov_base::{Memory, Plain};

/// What one gateway says of its own versions (docs/STORE.md, Watermarks): below `low` each has reached a write
/// quorum, below `full` each has reached every copy, and below `done` each is replied. Marks are numbers of
/// versions.
#[derive(Clone, Copy, Debug, PartialEq, Eq)]
pub struct Marks {
    pub low: u64,
    pub full: u64,
    pub done: u64,
}

impl Marks {
    /// The greater of both, mark by mark.
    pub fn greater(self, other: Marks) -> Marks
        ensures { result ≡ greater self other }
    {
        Marks {
            low: self.low.max(other.low),
            full: self.full.max(other.full),
            done: self.done.max(other.done),
        }
    }
}

impl Plain for Marks {
    ghost exact = { λ x y h. Prim.grind (exact_tests) };

    fn copy(&self) -> Result<Marks, Memory> {
        Ok(*self)
    }
}
