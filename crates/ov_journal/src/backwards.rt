//! Reading a journal from its last line to its first: its text goes as its entries come, so that the two never stand in
//! memory whole together.
ghost use Rattle.std.specs.Prelude.{◌≡◌, [], ◌∷◌, ◌++◌, reverse, IfOk, IfSome};
ghost use Rattle.std.specs.List.{AllByRecursion};
ghost use Rattle.ov_journal.specs.Journal.{Gives, followed, journal_of, journal_text};
ghost use Rattle.ov_journal.specs.Line.{HasLine};

use crate::error::JournalError;
use crate::journal::{about_lines, read_journal, room_for};
use crate::tailed::add_line;
use crate::tails::Tails;
use ov_base::{Memory, Sequence};
use ov_event::Entry;
use std::alloc::Global;

/// So many bytes of room behind a text are kept.
const KEPT_ROOM: usize = 1 << 20;

/// Behind a long text, room for one part in so many of it is kept, so that giving room back takes time in proportion to
/// the text even where memory moves it.
const KEPT_PART: usize = 16;

/// The entries of a journal, the oldest first (docs/FORMATS.md, Journal), or the number of its first line off the
/// grammar: what [`read_journal`] gives. It frees the text as it goes, from the end.
pub fn read_journal_from(alloc: Global, text: Vec<u8>) -> Result<Vec<Entry>, JournalError>
    ensures exact { Gives (λ entries. entries.items) result (journal_of text.items) }
    ensures spelled { IfOk result (λ entries. text.items ≡ journal_text entries.items) }
    ensures form { IfOk result (λ entries. AllByRecursion HasLine entries.items) }
{
    read_backwards(alloc, text)
}

/// Reads lines from the end while they are those of entries, and then what is left from the front: the first line alone,
/// or all lines up to one off the grammar, which need not be the first such line.
fn read_backwards(alloc: Global, text: Vec<u8>) -> Result<Vec<Entry>, JournalError>
    ensures { Gives (λ entries. entries.items) result (journal_of text.items) }
{
    let mut text = text;
    let Ok(last) = take_lines(alloc, &mut text) else {
        return Err(JournalError::Memory);
    };
    let first = read_journal(alloc, text.as_slice())?;
    match join(first, last) {
        Ok(entries) => Ok(entries),
        Err(_) => Err(JournalError::Memory),
    }
}

/// Takes the lines of entries off the end of a text, down to a line that is none, but never the first line: their entries,
/// the last one first. The only error is out of memory.
fn take_lines(alloc: Global, text: &mut Vec<u8>) -> Result<Sequence<Entry>, Memory>
    ensures { IfOk result (λ entries. journal_of text.old.items ≡ followed (journal_of text.new.items) (reverse entries)) }
{
    let mut tails = Tails::new(alloc, about_lines(text.as_slice()))?;
    let mut entries = room_for(alloc, text.as_slice());
    while let Some((front, line)) = cut_last(text.as_slice()) {
        let kept = front.len() + 1;
        if !add_line(alloc, line, &mut tails, &mut entries)? {
            return Ok(entries);
        }
        text.truncate(kept);
        give_back(text);
    }
    Ok(entries)
}

/// What stands before the line feed in front of the last line, and the last line without its line feed. None for a text
/// that does not end in a line feed and for a single line. Does not allocate.
fn cut_last(text: &[u8]) -> Option<(&[u8], &[u8])>
    ensures { IfSome result (λ cut. text.now ≡ cut.0.now ++ 10 ∷ cut.1.now ++ 10 ∷ []) }
{
    let ended = before_feed(text)?;
    let at = ended.iter().rposition(|byte| *byte == b'\n')?;
    Some((&ended[..at], &ended[at + 1..]))
}

fn before_feed(text: &[u8]) -> Option<&[u8]>
    ensures { IfSome result (λ ended. text.now ≡ ended.now ++ 10 ∷ []) }
{
    match text {
        [ended @ .., b'\n'] => Some(ended),
        _ => None,
    }
}

/// Gives the room behind a text back, where it is more than what is kept. Does not allocate.
fn give_back(text: &mut Vec<u8>)
    ensures { text.new.items ≡ text.old.items }
{
    let spare = text.capacity().saturating_sub(text.len());
    if spare > KEPT_ROOM.max(text.len() / KEPT_PART) {
        text.shrink_to_fit();
    }
}

/// The entries of a front, the oldest first, and behind them those of the lines behind it, which come the last one first.
/// The only error is out of memory.
fn join(first: Vec<Entry>, last: Sequence<Entry>) -> Result<Vec<Entry>, Memory>
    ensures { IfOk result (λ entries. entries.items ≡ first.items ++ reverse last) }
{
    let mut first = first;
    first.reverse();
    let mut entries = last.into_vec();
    entries.append(&mut first)?;
    entries.reverse();
    Ok(entries)
}
