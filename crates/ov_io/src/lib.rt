//! The outside of the program: files that are read, and a sink that texts are written to.
//!
//! The promise to the layer above: a fault is returned only where the object's own count of faults rose in
//! that call, so code that is generic over [`Shelf`] and [`Sink`] cannot give up by itself; what a call
//! read or wrote is stated wherever the object tells its content.
//!
//! Start with the two traits. [`SureShelf`] and [`SureSink`] never fail, [`MemoryShelf`] and [`MemorySink`]
//! fail at chosen calls, and [`FileShelf`] and [`StdoutSink`] are the trusted edge over the real system,
//! which tells nothing of content.
#![tactic(auto)]

mod files;
mod memory;
mod real;
mod report;
mod shelf;
mod sink;
mod sure;

pub use files::NamedFile;
pub use memory::{MemoryShelf, MemorySink};
pub use real::{FileShelf, StdoutSink};
pub use report::{ReportError, put_text};
pub use shelf::{Shelf, ShelfError};
pub use sink::{Sink, SinkError};
pub use sure::{SureShelf, SureSink};

#[cfg(test)]
mod tests;
