//! The trusted edge: the files of the system and its standard output. Nothing is told of the content of files, and
//! of the output what its writer tells.
ghost use Rattle.std.specs.Prelude.{◌≡◌, ℕ, List, None, length, ◌<◌, ◌≤◌, ◌+◌, IfOk, OnOk, IsErrOf};
ghost use Rattle.std.specs.Io.KnownBytes.{Appends, Consumes, IsAtEnd};
ghost use Rattle.ov_io.specs.Causes.{Rose, LongerThan};

use crate::shelf::{Shelf, ShelfError};
use crate::sink::{Sink, SinkError};
use std::alloc::Global;
use std::fs;
use std::io::{Read, Write};
use std::marker::Model;
use std::rt::Files;

/// How many bytes are read at once.
const CHUNK: usize = 4096;

/// The files of the system. Contracts see how many reads have failed; one count serves all names. A folder
/// in place of a file fails.
#[derive(Drop)]
pub struct FileShelf<'a, R: Files> {
    rt: &'a R,
    failed: u64,
}

impl<'a, R: Files> Model for FileShelf<'a, R> {
    ghost use Rattle.std.specs.Prelude.{ℕ};

    ghost Value = { ℕ };

    ghost view = { λ s. s.failed };
}

impl<'a, R: Files> FileShelf<'a, R> {
    /// The files that the runtime reaches. No read has failed yet.
    pub fn new(rt: &'a R) -> FileShelf<'a, R>
        ensures { result ≡ 0 }
    {
        FileShelf { rt, failed: 0 }
    }
}

impl<R: Files> Shelf for FileShelf<'_, R> {
    ghost told = { λ s name. None };

    ghost faults = { λ s name. s };

    fn read(&mut self, alloc: Global, name: &str, limit: u64) -> Result<Vec<u8>, ShelfError> {
        let answer = read_file(self.rt, alloc, name, limit);
        if let Err(ShelfError::Failed) = answer {
            self.failed = self.failed.saturating_add(1);
        }
        answer
    }
}

fn read_file<R: Files>(rt: &R, alloc: Global, name: &str, limit: u64) -> Result<Vec<u8>, ShelfError>
    ensures short { IfOk result (λ v. length v.items ≤ limit) }
    ensures long { IsErrOf result ShelfError.TooLong → LongerThan limit None }
{
    match fs::open(rt, name) {
        Err(_) => Err(ShelfError::Failed),
        Ok(mut file) => read_all(&mut file, alloc, limit),
    }
}

/// Reads to the end, and never more than one byte past the limit.
fn read_all<F: Read>(file: &mut F, alloc: Global, limit: u64) -> Result<Vec<u8>, ShelfError>
    ensures bytes { IfOk result (λ v. Consumes (F.remaining file.old) (F.remaining file.new) v.items) }
    ensures end { OnOk result (IsAtEnd (F.remaining file.new)) }
    ensures asked { (taken : List ℕ) × Consumes (F.remaining file.old) (F.remaining file.new) taken × (length taken ≤ limit + 1) }
    ensures short { IfOk result (λ v. length v.items ≤ limit) }
    ensures long { IsErrOf result ShelfError.TooLong → LongerThan limit None }
{
    let mut bytes = Vec::new(alloc);
    let mut chunk = [0u8; CHUNK];
    for _ in 0..u64::MAX {
        let room = room_within(limit, bytes.len() as u64);
        let count = match file.read(&mut chunk[..room]) {
            Ok(count) => count,
            Err(_) => return Err(ShelfError::Failed),
        };
        if count == 0 {
            return Ok(bytes);
        }
        if bytes.extend_from_slice(&chunk[..count]).is_err() {
            return Err(ShelfError::Memory);
        }
        if bytes.len() as u64 > limit {
            return Err(ShelfError::TooLong);
        }
    }
    Err(ShelfError::Failed)
}

/// How many bytes may still be asked for: up to one past the limit, and no more than a chunk.
fn room_within(limit: u64, held: u64) -> usize
    requires { held ≤ limit }
    ensures some { 0 < result }
    ensures within { result ≤ CHUNK }
    ensures limit { held + result ≤ limit + 1 }
{
    limit
        .saturating_sub(held)
        .saturating_add(1)
        .min(CHUNK as u64) as usize
}

/// The standard output, or any other writer. Contracts see the writer, and how many puts have failed.
#[derive(Drop)]
pub struct StdoutSink<W: Write + Drop> {
    out: W,
    failed: u64,
}

impl<W: Write + Drop> Model for StdoutSink<W> {
    ghost use Rattle.std.specs.Prelude.{ℕ};
    ghost use Rattle.std.specs.Coded.{coded×, coded_ℕ};

    ghost Value = { W × ℕ };

    ghost coded = { coded× W.code coded_ℕ };

    ghost view = { λ s. (s.out, s.failed) };
}

impl<W: Write + Drop> StdoutSink<W> {
    /// A sink over this writer. No put has failed yet.
    pub fn new(out: W) -> StdoutSink<W>
        ensures { result ≡ (out, 0) }
    {
        StdoutSink { out, failed: 0 }
    }
}

impl<W: Write + Drop> Sink for StdoutSink<W> {
    ghost written = { λ s. None };

    ghost faults = { λ s. s.1 };

    /// On success the writer took all of the bytes, where it tells its content.
    fn put(&mut self, _alloc: Global, bytes: &[u8]) -> Result<(), SinkError>
        ensures failed { IsErrOf result SinkError.Failed → Rose self.old.1 self.new.1 }
        ensures later { self.old.1 ≤ self.new.1 }
        ensures quiet { ¬ IsErrOf result SinkError.Failed → self.new.1 ≡ self.old.1 }
        ensures once { self.new.1 ≤ self.old.1 + 1 }
        ensures whole { OnOk result (Appends (W.contents self.old.0) (W.contents self.new.0) bytes.now) }
    {
        match self.out.write_all(bytes) {
            Ok(()) => Ok(()),
            Err(_) => {
                self.failed = self.failed.saturating_add(1);
                Err(SinkError::Failed)
            }
        }
    }
}
