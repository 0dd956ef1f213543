//! Writing a text to a sink.
ghost use Rattle.std.specs.Prelude.{◌≡◌, ◌≤◌, OnOk, OnErr, IsErrOf};
ghost use Rattle.ov_io.specs.Causes.{Rose, Wrote, WroteFront};

use crate::sink::{Sink, SinkError};
use std::alloc::Global;

/// Why a text was not written whole to a sink.
#[derive(Clone, Copy, Debug, PartialEq, Eq)]
pub enum ReportError {
    /// Out of memory.
    Memory,
    /// A write failed, and the sink has counted it.
    WriteFault,
}

/// Writes the bytes. After an error a prefix of them was written. `WriteFault` comes only where the sink's count of
/// faults rose in this call; out of memory may always come.
pub fn put_text<K: Sink>(alloc: Global, bytes: &[u8], out: &mut K) -> Result<(), ReportError>
    ensures ok { OnOk result (Wrote (K.written out.old) (K.written out.new) bytes.now) }
    ensures err { OnErr result (WroteFront (K.written out.old) (K.written out.new) bytes.now) }
    ensures failed { IsErrOf result ReportError.WriteFault → Rose (K.faults out.old) (K.faults out.new) }
    ensures later { K.faults out.old ≤ K.faults out.new }
    ensures quiet { ¬ IsErrOf result ReportError.WriteFault → K.faults out.new ≡ K.faults out.old }
{
    match out.put(alloc, bytes) {
        Ok(()) => Ok(()),
        Err(SinkError::Memory) => Err(ReportError::Memory),
        Err(SinkError::Failed) => Err(ReportError::WriteFault),
    }
}
