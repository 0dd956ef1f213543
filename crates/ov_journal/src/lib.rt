//! Journals: histories as text, a first line and then one line for each entry, the oldest first.
//!
//! The promise to the layers above: a text is read exactly where it is the journal of entries, and the first line off
//! the grammar is named else; what is read is written again byte for byte, and what is written is read back as the same
//! entries. Each line that is read is in the ranges of the grammar. [`read_journal_from`] reads the same of a text that it
//! owns, and frees it as it goes, so that a text and its entries never stand in memory whole together. [`audit`] judges
//! entries: they are lawful, or the first that may not follow those before it is named. Each entry of a lawful history has
//! a line, so that every history can be written ([`histories_have_journals`]).
//!
//! Start with `specs/Line.antt`, the line of an entry and the entries that have one, and `specs/Journal.antt`, the text of
//! a journal; `specs/Read.antt` has how a line is read, `specs/Text.antt` how it is written, piece by piece.
#![tactic(auto)]

mod backwards;
mod common;
mod error;
mod form;
mod gate;
mod journal;
mod laws;
mod line;
mod list;
mod node;
mod print;
mod settler;
mod start;
mod tailed;
mod tails;
mod verdict;
mod word;

pub use backwards::read_journal_from;
pub use error::JournalError;
pub use form::has_line;
pub use journal::{read_journal, write_journal};
pub use laws::histories_have_journals;
pub use line::parse_entry;
pub use print::print_entry;
pub use verdict::{Verdict, audit};
