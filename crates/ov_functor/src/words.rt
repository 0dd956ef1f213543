//! The parts of a transaction as text.
ghost use Rattle.std.specs.Prelude.{◌≡◌, ◌∷◌, ◌++◌, [], IfOk};
ghost use Rattle.std.specs.List.{flat_map};
ghost use Rattle.std.specs.Option.{option_map};
ghost use Rattle.ov_base.specs.Word.{Reads, Printed};
ghost use Rattle.ov_base.specs.Groups.{words_in, groups_in};
ghost use Rattle.ov_base.specs.Split.{joined};
ghost use Rattle.ov_base.specs.Amount.{amount_text};
ghost use Rattle.ov_functor.specs.Words.{part_text, further_text, parts_text, IsParts, key_part, amount_part, move_part, key_part_of, amount_part_of, move_of, move_part_of, part_of, parts_in, parts_of};

use crate::part::Part;
use ov_base::{Amount, Key, Memory, groups_at, parts_at};
use std::alloc::Global;

/// The parts that the bytes spell (docs/FORMATS.md, Parts): one or more parts with ` ; ` between them. None
/// exactly where they spell none; the only error is out of memory.
pub fn parse_parts(alloc: Global, text: &[u8]) -> Result<Option<Vec<Part>>, Memory>
    ensures exact { IfOk result (λ o. option_map (λ v. v.items) o ≡ parts_of text.now) }
    ensures reads { IfOk result (λ o. Reads parts_text IsParts text.now (option_map (λ v. v.items) o)) }
{
    parts_read(alloc, text)
}

fn parts_read(alloc: Global, text: &[u8]) -> Result<Option<Vec<Part>>, Memory>
    ensures { IfOk result (λ o. option_map (λ v. v.items) o ≡ parts_of text.now) }
{
    let words = parts_at(alloc, text, b' ')?;
    let groups = groups_at(alloc, words.as_slice())?;
    parts_in_groups(alloc, groups.as_slice())
}

/// The parts that the groups of words spell, a part for each group. None exactly where one spells none; the
/// only error is out of memory.
pub fn parts_in_groups(alloc: Global, groups: &[&[&[u8]]]) -> Result<Option<Vec<Part>>, Memory>
    ensures { IfOk result (λ o. option_map (λ v. v.items) o ≡ parts_in (groups_in groups.now)) }
{
    let mut parts = Vec::with_capacity(alloc, groups.len())?;
    for group in groups {
        match parse_part(group) {
            None => return Ok(None),
            Some(part) => parts.push(part)?,
        }
    }
    Ok(Some(parts))
}

#[tactic(auto, unfolding(crate::specs::Words::part_of))]
fn parse_part(words: &[&[u8]]) -> Option<Part>
    ensures { result ≡ part_of (words_in words.now) }
{
    match words {
        [word, key] => parse_key_part(word, key),
        [word, key, amount] => parse_amount_part(word, key, amount),
        [word, from, to, amount] => parse_move_part(word, from, to, amount),
        _ => None,
    }
}

fn parse_key_part(word: &[u8], key: &[u8]) -> Option<Part>
    ensures { result ≡ key_part_of word.now key.now }
{
    part_on(word, Key::from_bytes(key)?)
}

fn part_on(word: &[u8], key: Key) -> Option<Part>
    ensures { result ≡ key_part word.now key }
{
    if word == b"get".as_slice() {
        Some(Part::Get { key })
    } else if word == b"del".as_slice() {
        Some(Part::Del { key })
    } else {
        None
    }
}

fn parse_amount_part(word: &[u8], key: &[u8], amount: &[u8]) -> Option<Part>
    ensures { result ≡ amount_part_of word.now key.now amount.now }
{
    let key = Key::from_bytes(key)?;
    let amount = Amount::parse(amount)?;
    part_with(word, key, amount)
}

fn part_with(word: &[u8], key: Key, amount: Amount) -> Option<Part>
    ensures { result ≡ amount_part word.now key amount }
{
    if word == b"put".as_slice() {
        Some(Part::Put { key, amount })
    } else if word == b"add".as_slice() {
        Some(Part::Add { key, amount })
    } else if word == b"least".as_slice() {
        Some(Part::Least { key, amount })
    } else if word == b"greatest".as_slice() {
        Some(Part::Greatest { key, amount })
    } else {
        None
    }
}

fn parse_move_part(word: &[u8], from: &[u8], to: &[u8], amount: &[u8]) -> Option<Part>
    ensures { result ≡ move_part_of word.now from.now to.now amount.now }
{
    if word == b"move".as_slice() {
        parse_move(from, to, amount)
    } else {
        None
    }
}

fn parse_move(from: &[u8], to: &[u8], amount: &[u8]) -> Option<Part>
    ensures { result ≡ move_of from.now to.now amount.now }
{
    let from = Key::from_bytes(from)?;
    let to = Key::from_bytes(to)?;
    let amount = Amount::parse(amount)?;
    move_between(from, to, amount)
}

fn move_between(from: Key, to: Key, amount: Amount) -> Option<Part>
    ensures { result ≡ move_part from to amount }
{
    if amount.get() >= 1 {
        Some(Part::Move { from, to, amount })
    } else {
        None
    }
}

/// Writes the parts at the end, with ` ; ` between them (docs/FORMATS.md, Parts); no part writes nothing. On
/// an error a prefix of that text was written.
pub fn print_parts(parts: &[Part], text: &mut Vec<u8>) -> Result<(), Memory>
    ensures { Printed result text.old.items text.new.items (parts_text parts.now) }
{
    match parts {
        [] => Ok(()),
        [first, others @ ..] => {
            print_part(first, text)?;
            print_further(others, text)
        }
    }
}

fn print_further(parts: &[Part], text: &mut Vec<u8>) -> Result<(), Memory>
    ensures { Printed result text.old.items text.new.items (flat_map further_text parts.now) }
{
    for part in parts {
        print_separated(part, text)?;
    }
    Ok(())
}

/// Writes the part behind ` ; `.
fn print_separated(part: &Part, text: &mut Vec<u8>) -> Result<(), Memory>
    ensures { Printed result text.old.items text.new.items (further_text part.now) }
{
    text.extend_from_slice(b" ; ")?;
    print_part(part, text)
}

fn print_part(part: &Part, text: &mut Vec<u8>) -> Result<(), Memory>
    ensures { Printed result text.old.items text.new.items (part_text part.now) }
{
    match part {
        Part::Put { key, amount } => print_with(b"put", key, amount, text),
        Part::Del { key } => print_on(b"del", key, text),
        Part::Add { key, amount } => print_with(b"add", key, amount, text),
        Part::Least { key, amount } => print_with(b"least", key, amount, text),
        Part::Greatest { key, amount } => print_with(b"greatest", key, amount, text),
        Part::Move { from, to, amount } => print_move(from, to, amount, text),
        Part::Get { key } => print_on(b"get", key, text),
    }
}

fn print_on(word: &[u8], key: &Key, text: &mut Vec<u8>) -> Result<(), Memory>
    ensures { Printed result text.old.items text.new.items (joined 32 (word.now ∷ key.now ∷ [])) }
{
    text.extend_from_slice(word)?;
    print_key(key, text)
}

fn print_with(word: &[u8], key: &Key, amount: &Amount, text: &mut Vec<u8>) -> Result<(), Memory>
    ensures { Printed result text.old.items text.new.items (joined 32 (word.now ∷ key.now ∷ amount_text amount.now ∷ [])) }
{
    text.extend_from_slice(word)?;
    print_valued(key, amount, text)
}

fn print_move(from: &Key, to: &Key, amount: &Amount, text: &mut Vec<u8>) -> Result<(), Memory>
    ensures { Printed result text.old.items text.new.items (part_text (Part.Move from.now to.now amount.now)) }
{
    print_on(b"move", from, text)?;
    print_valued(to, amount, text)
}

/// Writes the key and the amount, each behind a space.
fn print_valued(key: &Key, amount: &Amount, text: &mut Vec<u8>) -> Result<(), Memory>
    ensures { Printed result text.old.items text.new.items (32 ∷ key.now ++ 32 ∷ amount_text amount.now) }
{
    text.push(b' ')?;
    text.extend_from_slice(key.bytes())?;
    text.push(b' ')?;
    amount.print_to(text)
}

/// Writes the key behind a space.
fn print_key(key: &Key, text: &mut Vec<u8>) -> Result<(), Memory>
    ensures { Printed result text.old.items text.new.items (32 ∷ key.now) }
{
    text.push(b' ')?;
    text.extend_from_slice(key.bytes())?;
    Ok(())
}
