//! Journals: reading one from its text, and writing one to a sink.
ghost use Rattle.std.specs.Prelude.{◌≡◌, ◌≤◌, List, [], ◌∷◌, ◌++◌, IfOk, IfErr, OnOk, OnErr, IsErrOf, Ok};
ghost use Rattle.std.specs.List.{AllByRecursion};
ghost use Rattle.ov_base.specs.Lines.{TakesLine, lines_text};
ghost use Rattle.ov_io.specs.Causes.{Rose, Wrote, WroteFront};
ghost use Rattle.ov_journal.specs.Journal as spec;
ghost use Rattle.ov_journal.specs.Journal.{Gives, first_read, journal_of, journal_text, line_read};
ghost use Rattle.ov_journal.specs.Line.{HasLine, entry_text};

use crate::error::JournalError;
use crate::print::print_into;
use crate::tailed::add_line;
use crate::tails::Tails;
use ov_base::{FromLines, LineError, Memory, Sequence, read_lines};
use ov_event::Entry;
use ov_io::{ReportError, Sink, put_text};
use std::alloc::Global;
use std::marker::Model;

/// The first line.
const FIRST_LINE: &[u8] = b"oceanvista journal 1";

/// The fewest bytes of the line of an entry, with its line feed: those of `g0 stopped`.
const SHORTEST_LINE: usize = 11;

/// By so many bytes the length of the lines of a journal is told.
const FIRST_BYTES: usize = 4096;

// ---- reading

/// The entries of a journal, the oldest first (docs/FORMATS.md, Journal), or the number of its first line off the
/// grammar.
pub fn read_journal(alloc: Global, bytes: &[u8]) -> Result<Vec<Entry>, JournalError>
    ensures exact { Gives (λ entries. entries.items) result (journal_of bytes.now) }
    ensures spelled { IfOk result (λ entries. bytes.now ≡ journal_text entries.items) }
    ensures form { IfOk result (λ entries. AllByRecursion HasLine entries.items) }
{
    journal_read(alloc, bytes)
}

fn journal_read(alloc: Global, bytes: &[u8]) -> Result<Vec<Entry>, JournalError>
    ensures { Gives (λ entries. entries.items) result (journal_of bytes.now) }
{
    match bytes {
        [] => Err(JournalError::Line(1)),
        [_, ..] => lines_read(alloc, bytes),
    }
}

fn lines_read(alloc: Global, bytes: &[u8]) -> Result<Vec<Entry>, JournalError>
    ensures { Gives (λ entries. entries.items) result (spec.numbered (spec.lines_of bytes.now)) }
{
    let Ok(tails) = Tails::new(alloc, about_lines(bytes)) else {
        return Err(JournalError::Memory);
    };
    let empty = Entries {
        entries: room_for(alloc, bytes),
        tails,
    };
    match read_lines(alloc, empty, bytes) {
        Ok(read) => Ok(read.entries.into_vec()),
        Err(LineError::Memory) => Err(JournalError::Memory),
        Err(LineError::Line { line, .. }) => Err(JournalError::Line(line)),
    }
}

/// No entries, with room for about as many as the bytes have lines, where memory has it.
pub(crate) fn room_for(alloc: Global, bytes: &[u8]) -> Sequence<Entry>
    ensures { result ≡ [] }
{
    match Sequence::with_capacity(alloc, about_lines(bytes)) {
        Ok(entries) => entries,
        Err(_) => Sequence::new(alloc),
    }
}

/// About how many lines of entries the bytes are: as many as if all of them were like the first ones. Does not allocate.
pub(crate) fn about_lines(bytes: &[u8]) -> usize {
    let first = &bytes[..bytes.len().min(FIRST_BYTES)];
    let lines = first.iter().filter(|byte| **byte == b'\n').count();
    let times = bytes.len() / FIRST_BYTES + 1;
    lines.saturating_mul(times).min(bytes.len() / SHORTEST_LINE)
}

/// The entries of the lines that were read, and what was read last behind the heads of lines. Contracts see the entries.
#[derive(Drop)]
pub struct Entries {
    entries: Sequence<Entry>,
    tails: Tails,
}

impl Model for Entries {
    ghost use Rattle.std.specs.Prelude.{List};
    ghost use Rattle.ov_event.specs.declared.entry.Entry.{Entry};

    ghost Value = { List Entry };

    ghost view = { λ e. e.entries };
}

impl FromLines for Entries {
    type Fault = ();

    ghost taken = { line_read };

    ghost unended = { spec.unended };

    fn take_line(&mut self, alloc: Global, line: u64, text: &[u8]) -> Result<(), LineError<()>> {
        if line == 1 {
            return take_first(line, text);
        }
        match add_line(alloc, text, &mut self.tails, &mut self.entries) {
            Err(_) => Err(LineError::Memory),
            Ok(false) => Err(LineError::Line { line, fault: () }),
            Ok(true) => Ok(()),
        }
    }

    fn unended(_line: u64) {}
}

/// Takes in the first line.
fn take_first(line: u64, text: &[u8]) -> Result<(), LineError<()>>
    ensures { (entries : List Entry) → TakesLine result line entries (first_read entries text.now) }
{
    if text == FIRST_LINE {
        Ok(())
    } else {
        Err(LineError::Line { line, fault: () })
    }
}

// ---- writing

/// Writes the text of these entries, the oldest first, a put for each line. It is read back as these entries. After
/// an error a prefix of it was written. `WriteFault` comes only where the sink's count of faults rose in this call, and it
/// rises in no other; out of memory may always come. Condition: each entry has a line.
pub fn write_journal<K: Sink>(
    alloc: Global,
    entries: &[Entry],
    out: &mut K,
) -> Result<(), ReportError>
    requires { AllByRecursion HasLine entries.now }
    ensures ok { OnOk result (Wrote (K.written out.old) (K.written out.new) (journal_text entries.now)) }
    ensures err { OnErr result (WroteFront (K.written out.old) (K.written out.new) (journal_text entries.now)) }
    ensures failed { IsErrOf result ReportError.WriteFault → Rose (K.faults out.old) (K.faults out.new) }
    ensures later { K.faults out.old ≤ K.faults out.new }
    ensures quiet { ¬ IsErrOf result ReportError.WriteFault → K.faults out.new ≡ K.faults out.old }
    ensures again { journal_of (journal_text entries.now) ≡ Ok entries.now }
{
    match put_text(alloc, b"oceanvista journal 1\n", out) {
        Ok(()) => put_entries(alloc, entries, out),
        Err(error) => Err(error),
    }
}

fn put_entries<K: Sink>(alloc: Global, entries: &[Entry], out: &mut K) -> Result<(), ReportError>
    requires { AllByRecursion HasLine entries.now }
    ensures ok { OnOk result (Wrote (K.written out.old) (K.written out.new) (lines_text entry_text entries.now)) }
    ensures err { OnErr result (WroteFront (K.written out.old) (K.written out.new) (lines_text entry_text entries.now)) }
    ensures failed { IsErrOf result ReportError.WriteFault → Rose (K.faults out.old) (K.faults out.new) }
    ensures later { K.faults out.old ≤ K.faults out.new }
    ensures quiet { ¬ IsErrOf result ReportError.WriteFault → K.faults out.new ≡ K.faults out.old }
{
    let mut line = Vec::new(alloc);
    for entry in entries {
        match put_entry(alloc, entry, &mut line, out) {
            Ok(()) => {}
            Err(error) => return Err(error),
        }
    }
    Ok(())
}

/// Writes the line of the entry, with its line feed, by way of these bytes.
fn put_entry<K: Sink>(
    alloc: Global,
    entry: &Entry,
    line: &mut Vec<u8>,
    out: &mut K,
) -> Result<(), ReportError>
    requires { HasLine entry.now }
    ensures ok { OnOk result (Wrote (K.written out.old) (K.written out.new) (entry_text entry.now ++ 10 ∷ [])) }
    ensures err { OnErr result (WroteFront (K.written out.old) (K.written out.new) (entry_text entry.now ++ 10 ∷ [])) }
    ensures failed { IsErrOf result ReportError.WriteFault → Rose (K.faults out.old) (K.faults out.new) }
    ensures later { K.faults out.old ≤ K.faults out.new }
    ensures quiet { ¬ IsErrOf result ReportError.WriteFault → K.faults out.new ≡ K.faults out.old }
{
    match end_line(entry, line) {
        Err(_) => Err(ReportError::Memory),
        Ok(()) => put_text(alloc, line.as_slice(), out),
    }
}

/// Makes these bytes the line of the entry, with its line feed.
fn end_line(entry: &Entry, line: &mut Vec<u8>) -> Result<(), Memory>
    requires { HasLine entry.now }
    ensures { OnOk result (line.new.items ≡ entry_text entry.now ++ 10 ∷ []) }
{
    print_into(entry, line)?;
    line.push(b'\n')?;
    Ok(())
}
