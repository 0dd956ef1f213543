//! Whole numbers as words: decimal digits, without a sign and without a leading zero.
ghost use Rattle.std.specs.Prelude.{◌≡◌, ◌<◌, ◌++◌, decimal, OnOk, OnErr, IsTrue, ◌↔◌};
ghost use Rattle.ov_base.specs.Word.{Reads};
ghost use Rattle.ov_base.specs.Number as spec;
ghost use Rattle.ov_base.specs.Number.{IsWord64, IsWithin, IsPlain, number_of, number_within, value_after};

use crate::memory::Memory;
use itoa::Buffer;

/// The number that the bytes spell, up to `2^64 - 1`. None exactly where they spell none.
pub fn parse_number(text: &[u8]) -> Option<u64>
    ensures reads { Reads decimal IsWord64 text.now result }
    ensures exact { result ≡ number_of text.now }
{
    plain_number(text)
}

fn plain_number(text: &[u8]) -> Option<u64>
    ensures { Reads decimal IsWord64 text.now result }
{
    if !is_plain(text) {
        return None;
    }
    digits_value(text)
}

/// The value of decimal digits, up to `2^64 - 1`. None where another byte stands among them, or where it is greater.
fn digits_value(text: &[u8]) -> Option<u64>
    ensures { result ≡ value_after 0 text.now }
{
    let mut number = 0;
    let mut rest = text;
    while let [first, others @ ..] = rest {
        number = with_digit(number, *first)?;
        rest = others;
    }
    Some(number)
}

/// The number with this digit behind it. None where the byte is no digit, or where the number is greater than `2^64 - 1`.
fn with_digit(number: u64, byte: u8) -> Option<u64>
    ensures { result ≡ spec.with_digit number byte }
{
    if b'0' <= byte && byte <= b'9' {
        number.checked_mul(10)?.checked_add(u64::from(byte - b'0'))
    } else {
        None
    }
}

fn is_plain(text: &[u8]) -> bool
    ensures { IsTrue result ↔ IsPlain text.now }
{
    match text {
        [] => false,
        [b'0'] => true,
        [first, ..] => *first != b'0' && *first != b'+',
    }
}

/// The number that the bytes spell, where it lies from the one number to the other. None exactly where they
/// spell no such number.
pub fn parse_number_within(low: u64, high: u64, text: &[u8]) -> Option<u64>
    ensures exact { result ≡ number_within low high text.now }
    ensures reads { Reads decimal (IsWithin low high) text.now result }
{
    within_read(low, high, text)
}

fn within_read(low: u64, high: u64, text: &[u8]) -> Option<u64>
    ensures { result ≡ number_within low high text.now }
{
    let number = parse_number(text)?;
    if low <= number && number <= high {
        Some(number)
    } else {
        None
    }
}

/// Writes the number's one spelling at the end. On an error the text is as before.
pub fn print_number(number: u64, text: &mut Vec<u8>) -> Result<(), Memory>
    ensures ok { OnOk result (text.new.items ≡ text.old.items ++ decimal number) }
    ensures err { OnErr result (text.new.items ≡ text.old.items) }
{
    if number < 10 {
        return print_digit(number, text);
    }
    let mut digits = Buffer::new();
    text.extend_from_slice(digits.format(number).as_bytes())?;
    Ok(())
}

/// Writes a number below 10, which is one digit, at the end: most numbers of a journal are. On an error the text is as before.
fn print_digit(digit: u64, text: &mut Vec<u8>) -> Result<(), Memory>
    requires { digit < 10 }
    ensures ok { OnOk result (text.new.items ≡ text.old.items ++ decimal digit) }
    ensures err { OnErr result (text.new.items ≡ text.old.items) }
{
    text.push(b'0' + digit as u8)?;
    Ok(())
}
