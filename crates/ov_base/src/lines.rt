//! Texts of lines, each ended by a line feed: reading one line after the other, up to the first fault.
ghost use Rattle.std.specs.Prelude.{◌≡◌, ◌==◌, ℕ, List, length, if◌then◌else◌, Result, Ok, Err};
ghost use Rattle.std.specs.Option.{option_map};
ghost use Rattle.ov_base.specs.Lines.{IsRead, TakesLine, read_text};
ghost use Rattle.ov_base.specs.Split.{cut_at};

use memchr::memchr;
use std::alloc::Global;

/// Why a text of lines was not read.
#[derive(Clone, Copy, Debug)]
pub enum LineError<F> {
    /// Out of memory.
    Memory,
    /// The first line with a fault, from 1, and its first fault.
    Line { line: u64, fault: F },
}

/// What is read of a text of lines. Each line is a step from what was read before it; a limit of lines is a
/// fault of the lines past it.
pub trait FromLines: Drop {
    /// What may be wrong with a line.
    type Fault: Drop;

    /// What the bytes of a line with this number, from 1, make of what was read before it.
    ghost taken: { Self → ℕ → List ℕ → Result Self Self.Fault };

    /// The fault of a last line with this number that lacks its line feed.
    ghost unended: { ℕ → Self.Fault };

    /// Takes in the bytes of the line with this number. After an error what was read is of no use.
    fn take_line(
        &mut self,
        alloc: Global,
        line: u64,
        text: &[u8],
    ) -> Result<(), LineError<Self::Fault>>
        ensures { TakesLine result line self.new (taken self.old line text.now) };

    /// The fault of a last line with this number that lacks its line feed.
    fn unended(line: u64) -> Self::Fault
        ensures { result ≡ unended line };
}

/// Reads a text of lines into what is empty: the value that it makes, or its first line with a fault and the
/// first fault of that line.
pub fn read_lines<T: FromLines>(
    alloc: Global,
    empty: T,
    text: &[u8],
) -> Result<T, LineError<T::Fault>>
    ensures { IsRead result (read_text T.taken T.unended empty text.now) }
{
    let mut read = empty;
    let mut line = 1;
    let mut rest = text;
    while let Some((ended, others)) = split_line(rest) {
        match read.take_line(alloc, line, ended) {
            Ok(()) => {}
            Err(error) => return Err(error),
        }
        line += 1;
        rest = others;
    }
    last_read(read, line, rest)
}

/// The first line without its line feed, and what stands behind it. None exactly where there is no line feed.
fn split_line(text: &[u8]) -> Option<(&[u8], &[u8])>
    ensures { option_map (λ p. (p.0.now, p.1.now)) result ≡ cut_at 10 text.now }
{
    match memchr(b'\n', text) {
        Some(at) => Some((&text[..at], &text[at + 1..])),
        None => None,
    }
}

/// What was read, where nothing stands behind the last line feed.
fn last_read<T: FromLines>(read: T, line: u64, last: &[u8]) -> Result<T, LineError<T::Fault>>
    ensures { IsRead result (if length last.now == 0 then Ok read else Err (record { line = line; fault = T.unended line })) }
{
    if last.is_empty() {
        Ok(read)
    } else {
        Err(LineError::Line {
            line,
            fault: T::unended(line),
        })
    }
}
