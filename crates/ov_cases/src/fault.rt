//! Why a case file cannot be run.
use ov_base::Memory;
use std::alloc::{AllocError, AllocFailed};
use thiserror::Error;

/// Why a case file cannot be run. A case that fails is no fault.
#[derive(Debug, Drop, Error)]
pub enum CaseFault {
    /// Memory ran out.
    #[error("out of memory")]
    Memory,
    /// The line of this number, from 1, is off the form of a case file.
    #[error("line {number}: {what}")]
    Form { number: u64, what: &'static str },
}

impl From<Memory> for CaseFault {
    fn from(_refused: Memory) -> CaseFault {
        CaseFault::Memory
    }
}

impl From<AllocError> for CaseFault {
    fn from(_refused: AllocError) -> CaseFault {
        CaseFault::Memory
    }
}

impl<T: Drop> From<AllocFailed<T>> for CaseFault {
    fn from(_refused: AllocFailed<T>) -> CaseFault {
        CaseFault::Memory
    }
}
