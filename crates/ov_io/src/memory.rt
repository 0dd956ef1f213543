//! A shelf and a sink in memory that fail at chosen calls.
ghost use Rattle.std.specs.Prelude.{◌≡◌, ℕ, List, Option, Some, None, [], ◌<◌, ◌≤◌, ◌+◌, length, IfOk, IfSome, IsErrOf, IsNone, OnOk, OnErr, IsTrue, ◌↔◌, ◌⊎◌, vec_len};
ghost use Rattle.ov_io.specs.Files.{content, fault_count, place_from};
ghost use Rattle.ov_io.specs.Causes.{Rose, NoneFell, SameCounts, NoneRoseTwice, SameTold, Agrees, LongerThan, Wrote, WroteFront};
ghost use Rattle.ov_io.specs.Memory.{counted, is_to_fail};

use crate::files::NamedFile;
use crate::shelf::{Shelf, ShelfError};
use crate::sink::{Sink, SinkError, append};
use std::alloc::Global;
use std::marker::Model;

/// What was written, in memory, by puts of which chosen ones fail. A failing put writes nothing.
#[derive(Drop)]
pub struct MemorySink {
    written: Vec<u8>,
    failing: Vec<u64>,
    calls: u64,
    failed: u64,
}

impl Model for MemorySink {
    ghost use Rattle.ov_io.specs.Memory.{SinkState};

    ghost Value = { SinkState };

    ghost view = { λ s. record { written = s.written.items; failing = s.failing.items; calls = s.calls; failed = s.failed } };
}

impl MemorySink {
    /// A sink to which nothing was written, and whose puts with these numbers, from 1, are to fail. Does
    /// not allocate.
    pub fn of(alloc: Global, failing: Vec<u64>) -> MemorySink
        ensures { result ≡ record { written = []; failing = failing.items; calls = 0; failed = 0 } }
    {
        MemorySink {
            written: Vec::new(alloc),
            failing,
            calls: 0,
            failed: 0,
        }
    }

    /// What was written.
    pub fn written(&self) -> &[u8]
        ensures { result.now ≡ self.now.written }
    {
        self.written.as_slice()
    }
}

impl Sink for MemorySink {
    ghost written = { λ s. Some s.written };

    ghost faults = { λ s. s.failed };

    /// `Failed` comes exactly at the calls that are to fail.
    fn put(&mut self, _alloc: Global, bytes: &[u8]) -> Result<(), SinkError>
        ensures ok { OnOk result (Wrote (Some self.old.written) (Some self.new.written) bytes.now) }
        ensures err { OnErr result (WroteFront (Some self.old.written) (Some self.new.written) bytes.now) }
        ensures failed { IsErrOf result SinkError.Failed → Rose self.old.failed self.new.failed }
        ensures later { self.old.failed ≤ self.new.failed }
        ensures quiet { ¬ IsErrOf result SinkError.Failed → self.new.failed ≡ self.old.failed }
        ensures once { self.new.failed ≤ self.old.failed + 1 }
        ensures chosen { IsErrOf result SinkError.Failed ↔ IsTrue (is_to_fail self.old.failing self.old.calls) }
        ensures calls { self.new.calls ≡ counted self.old.calls }
        ensures failing { self.new.failing ≡ self.old.failing }
    {
        self.calls = self.calls.saturating_add(1);
        if self.failing.contains(&self.calls) {
            self.failed = self.failed.saturating_add(1);
            return Err(SinkError::Failed);
        }
        append(&mut self.written, bytes)
    }
}

/// Files in memory, of which chosen reads fail. A read of a name that is not there fails too. The failed
/// reads of a file are counted with it, those of all names that are not there in one number.
#[derive(Drop)]
pub struct MemoryShelf {
    files: Vec<NamedFile>,
    failing: Vec<u64>,
    calls: u64,
    absent: u64,
}

impl Model for MemoryShelf {
    ghost use Rattle.ov_io.specs.Memory.{ShelfState};

    ghost Value = { ShelfState };

    ghost view = { λ s. record { files = s.files.items; failing = s.failing.items; calls = s.calls; absent = s.absent } };
}

impl MemoryShelf {
    /// A shelf of these files whose reads with these numbers, from 1, are to fail. Does not allocate.
    pub fn of(files: Vec<NamedFile>, failing: Vec<u64>) -> MemoryShelf
        ensures { result ≡ record { files = files.items; failing = failing.items; calls = 0; absent = 0 } }
    {
        MemoryShelf {
            files,
            failing,
            calls: 0,
            absent: 0,
        }
    }
}

impl Shelf for MemoryShelf {
    ghost told = { λ s name. content s.files name };

    ghost faults = { λ s name. fault_count s.files s.absent name };

    /// `Failed` comes exactly at the calls that are to fail, and for names that are not there.
    fn read(&mut self, alloc: Global, name: &str, limit: u64) -> Result<Vec<u8>, ShelfError>
        ensures bytes { IfOk result (λ v. Agrees (content self.old.files name.now) v.items) }
        ensures short { IfOk result (λ v. length v.items ≤ limit) }
        ensures long { IsErrOf result ShelfError.TooLong → LongerThan limit (content self.old.files name.now) }
        ensures failed { IsErrOf result ShelfError.Failed
            → Rose (fault_count self.old.files self.old.absent name.now) (fault_count self.new.files self.new.absent name.now) }
        ensures later { NoneFell (fault_count self.old.files self.old.absent) (fault_count self.new.files self.new.absent) }
        ensures quiet { ¬ IsErrOf result ShelfError.Failed
            → SameCounts (fault_count self.old.files self.old.absent) (fault_count self.new.files self.new.absent) }
        ensures once { NoneRoseTwice (fault_count self.old.files self.old.absent) (fault_count self.new.files self.new.absent) }
        ensures same { SameTold (content self.old.files) (content self.new.files) }
        ensures chosen { IsErrOf result ShelfError.Failed
            ↔ (IsTrue (is_to_fail self.old.failing self.old.calls) ⊎ IsNone (content self.old.files name.now)) }
        ensures calls { self.new.calls ≡ counted self.old.calls }
        ensures failing { self.new.failing ≡ self.old.failing }
    {
        self.calls = self.calls.saturating_add(1);
        let fails = self.failing.contains(&self.calls);
        match place_of(self.files.as_slice(), name.as_bytes()) {
            None => {
                self.absent = self.absent.saturating_add(1);
                Err(ShelfError::Failed)
            }
            Some(place) => {
                if fails {
                    raise(&mut self.files, place);
                    return Err(ShelfError::Failed);
                }
                copy_of(alloc, &self.files[place], limit)
            }
        }
    }
}

fn place_of(files: &[NamedFile], name: &[u8]) -> Option<usize>
    ensures place { result ≡ place_from files.now name.now }
    ensures within { IfSome result (λ i. i < length files.now) }
{
    for (at, file) in files.iter().enumerate() {
        if file.name.as_slice() == name {
            return Some(at);
        }
    }
    None
}

/// Counts a failed read of the file at this place.
fn raise(files: &mut Vec<NamedFile>, place: usize)
    requires small { place < vec_len files.old }
    requires within { place < length files.old.items }
    ensures told { (name : List ℕ) → content files.new.items name ≡ content files.old.items name }
    ensures later { (name : List ℕ) (absent : ℕ) → fault_count files.old.items absent name ≤ fault_count files.new.items absent name }
    ensures once { (name : List ℕ) (absent : ℕ) → fault_count files.new.items absent name ≤ fault_count files.old.items absent name + 1 }
    ensures rose { (name : List ℕ) (absent : ℕ) → place_from files.old.items name ≡ Some place
        → Rose (fault_count files.old.items absent name) (fault_count files.new.items absent name) }
{
    let file = &mut files[place];
    file.failed = file.failed.saturating_add(1);
}

fn copy_of(alloc: Global, file: &NamedFile, limit: u64) -> Result<Vec<u8>, ShelfError>
    ensures bytes { IfOk result (λ v. v.items ≡ file.now.bytes) }
    ensures short { IfOk result (λ v. length v.items ≤ limit) }
    ensures long { IsErrOf result ShelfError.TooLong → limit < length file.now.bytes }
    ensures failed { IsErrOf result ShelfError.Failed → ⊥ }
{
    if file.bytes.len() as u64 > limit {
        return Err(ShelfError::TooLong);
    }
    match Vec::from_slice(alloc, file.bytes.as_slice()) {
        Ok(copy) => Ok(copy),
        Err(_) => Err(ShelfError::Memory),
    }
}
