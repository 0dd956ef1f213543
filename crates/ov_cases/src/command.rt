//! Cases of the command: words, the files that they name, and the status and the bytes that come.
use crate::block::blocks_of;
use crate::case::Case;
use crate::fault::CaseFault;
use crate::line::{bytes_of, print_count};
use ov_base::Sequence;
use ov_io::{FileShelf, MemoryShelf, MemorySink, NamedFile, Shelf, ShelfError};
use ov_top::{Story, stepped_top};
use std::alloc::{AllocError, Global};

/// How long a file of `data/` may be.
const LIMIT: u64 = 1 << 23;

/// How a call of the command ended, what it wrote, and what it read and did.
#[derive(Drop)]
pub struct Called {
    pub status: u8,
    pub sink: MemorySink,
    pub story: Story,
}

/// The line of the status, and what was written.
pub fn outcome(rt: &HostRuntime, words: &str, case: &Case) -> Result<Vec<u8>, CaseFault> {
    let called = call(rt, words, case)?;
    let mut outcome = Vec::new(rt.alloc());
    print_count("status", u64::from(called.status), &mut outcome)?;
    outcome.extend_from_slice(called.sink.written())?;
    Ok(outcome)
}

/// Calls the command with these words, over a shelf of the files of the case and a sink in memory.
pub fn call(rt: &HostRuntime, words: &str, case: &Case) -> Result<Called, CaseFault> {
    let alloc = rt.alloc();
    let words = words_of(alloc, words)?;
    let files = files_of(rt, words.as_slice(), case)?;
    let mut shelf = MemoryShelf::of(files, Vec::new(alloc));
    let mut sink = MemorySink::of(alloc, Vec::new(alloc));
    let mut story = Story::empty(alloc);
    let status = stepped_top(alloc, words.as_slice(), &mut shelf, &mut sink, &mut story);
    Ok(Called {
        status,
        sink,
        story,
    })
}

/// The words of the command line, of which `""` is the empty one.
fn words_of(alloc: Global, words: &str) -> Result<Vec<String>, AllocError> {
    let mut owned = Vec::new(alloc);
    for word in words.split_whitespace() {
        let word = if word == "\"\"" { "" } else { word };
        owned.push(String::from_str(alloc, word)?)?;
    }
    Ok(owned)
}

/// The files of a case: those that stand in it, and for other words those of `data/` that there are.
fn files_of(rt: &HostRuntime, words: &[String], case: &Case) -> Result<Vec<NamedFile>, CaseFault> {
    let mut files = Vec::new(rt.alloc());
    for block in blocks_of(rt.alloc(), case.input.as_slice())? {
        let bytes = bytes_of(rt.alloc(), block.lines.as_slice())?;
        files.push(file(rt.alloc(), block.name, bytes)?)?;
    }
    for word in words {
        if !has_name(files.as_slice(), word.as_str()) {
            push_real(rt, word.as_str(), &mut files)?;
        }
    }
    Ok(files)
}

fn file(alloc: Global, name: &str, bytes: Vec<u8>) -> Result<NamedFile, AllocError> {
    Ok(NamedFile {
        name: Sequence::from_vec(Vec::from_slice(alloc, name.as_bytes())?),
        bytes: Sequence::from_vec(bytes),
        failed: 0,
    })
}

fn has_name(files: &[NamedFile], name: &str) -> bool {
    files
        .iter()
        .any(|file| file.name.as_slice() == name.as_bytes())
}

/// Adds the file of `data/` of this name, where there is one.
fn push_real(rt: &HostRuntime, name: &str, files: &mut Vec<NamedFile>) -> Result<(), CaseFault> {
    match FileShelf::new(rt).read(rt.alloc(), name, LIMIT) {
        Ok(bytes) => {
            files.push(file(rt.alloc(), name, bytes)?)?;
            Ok(())
        }
        Err(ShelfError::Memory) => Err(CaseFault::Memory),
        Err(ShelfError::Failed | ShelfError::TooLong) => Ok(()),
    }
}
