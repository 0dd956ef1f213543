//! A place that texts are written to.
ghost use Rattle.std.specs.Prelude.{◌≡◌, ℕ, List, Option, ◌≤◌, ◌+◌, ◌++◌, OnOk, OnErr, IfErr, IsErrOf};
ghost use Rattle.ov_io.specs.Causes.{Rose, Wrote, WroteFront};

use std::alloc::Global;

/// Why bytes were not written whole.
#[derive(Clone, Copy, Debug, PartialEq, Eq)]
pub enum SinkError {
    /// Out of memory.
    Memory,
    /// The write failed, and the sink has counted it.
    Failed,
}

/// A place that texts are written to.
pub trait Sink {
    /// What was written, where the sink tells it.
    ghost written: { Self → Option (List ℕ) };

    /// How often writes have failed. The count never falls, and stands still at `2^64 - 1`.
    ghost faults: { Self → ℕ };

    /// Writes the bytes. After an error a prefix of them was written. `Failed` comes only where the count
    /// rose in this call, by one; it rises in no call that returns anything else. Out of memory may always
    /// come.
    fn put(&mut self, alloc: Global, bytes: &[u8]) -> Result<(), SinkError>
        ensures ok { OnOk result (Wrote (written self.old) (written self.new) bytes.now) }
        ensures err { OnErr result (WroteFront (written self.old) (written self.new) bytes.now) }
        ensures failed { IsErrOf result SinkError.Failed → Rose (faults self.old) (faults self.new) }
        ensures later { faults self.old ≤ faults self.new }
        ensures quiet { ¬ IsErrOf result SinkError.Failed → faults self.new ≡ faults self.old }
        ensures once { faults self.new ≤ faults self.old + 1 };
}

/// Appends the bytes to what was written in memory. On an error nothing is appended.
pub(crate) fn append(written: &mut Vec<u8>, bytes: &[u8]) -> Result<(), SinkError>
    ensures ok { OnOk result (written.new.items ≡ written.old.items ++ bytes.now) }
    ensures err { OnErr result (written.new.items ≡ written.old.items) }
    ensures memory { IfErr result (λ e. e ≡ SinkError.Memory) }
{
    match written.extend_from_slice(bytes) {
        Ok(()) => Ok(()),
        Err(_) => Err(SinkError::Memory),
    }
}
