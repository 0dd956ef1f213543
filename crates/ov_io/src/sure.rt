//! A shelf and a sink in memory that never fail.
ghost use Rattle.std.specs.Prelude.{◌≡◌, Some, unwrap_or, []};
ghost use Rattle.ov_io.specs.Files.{content};

use crate::files::NamedFile;
use crate::shelf::{Shelf, ShelfError};
use crate::sink::{Sink, SinkError, append};
use std::alloc::Global;
use std::marker::Model;

/// Files in memory, which contracts see as their list. No read fails: a name that is not there reads as
/// empty.
#[derive(Drop)]
pub struct SureShelf {
    files: Vec<NamedFile>,
}

impl Model for SureShelf {
    ghost use Rattle.std.specs.Prelude.{List};
    ghost use Rattle.ov_io.specs.declared.files.NamedFile.{NamedFile};

    ghost Value = { List NamedFile };

    ghost view = { λ s. s.files.items };
}

impl SureShelf {
    /// The shelf of these files. Does not allocate.
    pub fn of(files: Vec<NamedFile>) -> SureShelf
        ensures { result ≡ files.items }
    {
        SureShelf { files }
    }
}

impl Shelf for SureShelf {
    ghost told = { λ s name. Some (unwrap_or (content s name) []) };

    ghost faults = { λ s name. 0 };

    fn read(&mut self, alloc: Global, name: &str, limit: u64) -> Result<Vec<u8>, ShelfError> {
        let bytes = bytes_of(self.files.as_slice(), name.as_bytes());
        if bytes.len() as u64 > limit {
            return Err(ShelfError::TooLong);
        }
        match Vec::from_slice(alloc, bytes) {
            Ok(copy) => Ok(copy),
            Err(_) => Err(ShelfError::Memory),
        }
    }
}

fn bytes_of<'a>(files: &'a [NamedFile], name: &[u8]) -> &'a [u8]
    ensures { result.now ≡ unwrap_or (content files.now name.now) [] }
{
    match files.iter().find(|file| file.name.as_slice() == name) {
        Some(file) => file.bytes.as_slice(),
        None => &[],
    }
}

/// What was written, in memory, which contracts see as those bytes. The only error of a put is out of memory.
#[derive(Drop)]
pub struct SureSink {
    written: Vec<u8>,
}

impl Model for SureSink {
    ghost use Rattle.std.specs.Prelude.{List, ℕ};

    ghost Value = { List ℕ };

    ghost view = { λ s. s.written.items };
}

impl SureSink {
    /// A sink to which nothing was written. Does not allocate.
    pub fn new(alloc: Global) -> SureSink
        ensures { result ≡ [] }
    {
        SureSink {
            written: Vec::new(alloc),
        }
    }

    /// What was written.
    pub fn written(&self) -> &[u8]
        ensures { result.now ≡ self.now }
    {
        self.written.as_slice()
    }
}

impl Sink for SureSink {
    ghost written = { λ s. Some s };

    ghost faults = { λ s. 0 };

    fn put(&mut self, _alloc: Global, bytes: &[u8]) -> Result<(), SinkError> {
        append(&mut self.written, bytes)
    }
}
