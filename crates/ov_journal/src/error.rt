//! Why a journal was not read.
ghost use Rattle.std.specs.Prelude.{◌≡◌, ◌++◌, decimal};
ghost use Rattle.ov_base.specs.Word.{Printed};
ghost use Rattle.ov_journal.specs.Fault.{journal_fault_text};

use ov_base::{Memory, print_number};
use thiserror::Error;

/// Why a text was not read as a journal.
#[derive(Debug, Drop, Error)]
pub enum JournalError {
    /// Out of memory.
    #[error("out of memory")]
    Memory,
    /// The first line off the grammar, from 1.
    #[error("line {0}")]
    Line(u64),
}

impl JournalError {
    /// Writes the fault line without its line feed (docs/FORMATS.md, Fault lines); `Memory` has the empty line. On an error
    /// a prefix of it was written.
    pub fn print_to(&self, text: &mut Vec<u8>) -> Result<(), Memory>
        ensures { Printed result text.old.items text.new.items (journal_fault_text self.now) }
    {
        match self {
            JournalError::Memory => Ok(()),
            JournalError::Line(line) => print_fault(b"journal: line ", *line, text),
        }
    }
}

fn print_fault(words: &[u8], line: u64, text: &mut Vec<u8>) -> Result<(), Memory>
    ensures { Printed result text.old.items text.new.items (words.now ++ decimal line) }
{
    text.extend_from_slice(words)?;
    print_number(line, text)
}
