//! Files that are read.
ghost use Rattle.std.specs.Prelude.{◌≡◌, ℕ, List, Option, ◌≤◌, length, IfOk, IsErrOf};
ghost use Rattle.ov_io.specs.Causes.{Rose, NoneFell, SameCounts, NoneRoseTwice, SameTold, Agrees, LongerThan};

use std::alloc::Global;

/// Why a file was not read.
#[derive(Clone, Copy, Debug, PartialEq, Eq)]
pub enum ShelfError {
    /// Out of memory.
    Memory,
    /// The read failed, and the shelf has counted it.
    Failed,
    /// The file is longer than the limit.
    TooLong,
}

/// Files by their names.
pub trait Shelf {
    /// The bytes of the file of a name, where the shelf tells them.
    ghost told: { Self → List ℕ → Option (List ℕ) };

    /// How often reads of a name have failed. A count never falls, and stands still at `2^64 - 1`.
    ghost faults: { Self → List ℕ → ℕ };

    /// The bytes of a file, which are no more than the limit. `Failed` comes only where the count of that
    /// name rose in this call, `TooLong` exactly where the content is longer than the limit; out of memory
    /// is free. No count rises in a call that returns anything else than `Failed`, and none by more than one
    /// in one that does, where the counts of other names may rise with the name's. No read changes what is
    /// told.
    fn read(&mut self, alloc: Global, name: &str, limit: u64) -> Result<Vec<u8>, ShelfError>
        ensures bytes { IfOk result (λ v. Agrees (told self.old name.now) v.items) }
        ensures short { IfOk result (λ v. length v.items ≤ limit) }
        ensures long { IsErrOf result ShelfError.TooLong → LongerThan limit (told self.old name.now) }
        ensures failed { IsErrOf result ShelfError.Failed → Rose (faults self.old name.now) (faults self.new name.now) }
        ensures later { NoneFell (faults self.old) (faults self.new) }
        ensures quiet { ¬ IsErrOf result ShelfError.Failed → SameCounts (faults self.old) (faults self.new) }
        ensures once { NoneRoseTwice (faults self.old) (faults self.new) }
        ensures same { SameTold (told self.old) (told self.new) };
}
