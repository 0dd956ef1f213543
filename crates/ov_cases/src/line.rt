//! Lines of cases, and the bytes that they stand for.
ghost use Rattle.std.specs.Prelude.{◌<◌, IfSome};

use crate::fault::CaseFault;
use ov_base::{Memory, print_number};
use std::alloc::Global;

/// A line of a file, with its number, from 1.
#[derive(Clone, Copy, Debug)]
pub struct Line<'a> {
    pub number: u64,
    pub text: &'a str,
}

impl Line<'_> {
    /// The fault of this line.
    pub fn fault(&self, what: &'static str) -> CaseFault {
        CaseFault::Form {
            number: self.number,
            what,
        }
    }
}

/// The bytes that the lines stand for: each itself and its line feed, but `\times N LINE` is N lines, a `\` at
/// the end leaves out the line feed, `\xHH` is the byte of that number, and `\\` a backslash.
pub fn bytes_of(alloc: Global, lines: &[Line]) -> Result<Vec<u8>, CaseFault> {
    let mut bytes = Vec::new(alloc);
    for line in lines {
        append_line(alloc, line, &mut bytes)?;
    }
    Ok(bytes)
}

fn append_line(alloc: Global, line: &Line, bytes: &mut Vec<u8>) -> Result<(), CaseFault> {
    let (count, text) = times_of(line)?;
    let mut once = Vec::new(alloc);
    if !append_unescaped(text.as_bytes(), &mut once)? {
        return Err(line.fault("a backslash before something else"));
    }
    for _ in 0..count {
        bytes.extend_from_slice(once.as_slice())?;
    }
    Ok(())
}

/// How often a line is meant, and what is meant.
fn times_of<'a>(line: &Line<'a>) -> Result<(u64, &'a str), CaseFault> {
    let Some(times) = line.text.strip_prefix("\\times ") else {
        return Ok((1, line.text));
    };
    let Some((count, text)) = times.split_once(' ') else {
        return Err(line.fault("a count and a line are wanted"));
    };
    match count.parse::<u64>() {
        Ok(count) => Ok((count, text)),
        Err(_) => Err(line.fault("a count is wanted")),
    }
}

/// Appends the bytes of a line, with its line feed where it does not end with a backslash. Whether the line is
/// in form.
fn append_unescaped(text: &[u8], bytes: &mut Vec<u8>) -> Result<bool, CaseFault> {
    match text {
        [] => bytes.push(b'\n')?,
        [b'\\'] => {}
        [b'\\', b'\\', rest @ ..] => {
            bytes.push(b'\\')?;
            return append_unescaped(rest, bytes);
        }
        [b'\\', b'x', high, low, rest @ ..] => match hex_byte(*high, *low) {
            None => return Ok(false),
            Some(byte) => {
                bytes.push(byte)?;
                return append_unescaped(rest, bytes);
            }
        },
        [b'\\', ..] => return Ok(false),
        [byte, rest @ ..] => {
            bytes.push(*byte)?;
            return append_unescaped(rest, bytes);
        }
    }
    Ok(true)
}

/// The byte of two hexadecimal digits.
fn hex_byte(high: u8, low: u8) -> Option<u8> {
    Some(hex_digit(high)? * 16 + hex_digit(low)?)
}

/// The value of a hexadecimal digit, in small letters.
fn hex_digit(digit: u8) -> Option<u8>
    ensures { IfSome result (λ value. value < 16) }
{
    match digit {
        b'0'..=b'9' => Some(digit - b'0'),
        b'a'..=b'f' => Some(digit - b'a' + 10),
        _ => None,
    }
}

/// Prints a line of a word and a number.
pub fn print_count(word: &str, number: u64, printed: &mut Vec<u8>) -> Result<(), Memory> {
    printed.extend_from_slice(word.as_bytes())?;
    printed.push(b' ')?;
    print_number(number, printed)?;
    Ok(printed.push(b'\n')?)
}
