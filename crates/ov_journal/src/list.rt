//! The lists of a line: marks, settled values, items, parts and keys.
ghost use Rattle.std.specs.Prelude.{◌≡◌, ◌∷◌, IfOk};
ghost use Rattle.ov_base.specs.Groups.{groups_in, words_in};
ghost use Rattle.ov_base.specs.Key.{key_of};
ghost use Rattle.ov_base.specs.Split.{all_of};
ghost use Rattle.ov_event.specs.ItemWords.{item_of};
ghost use Rattle.ov_journal.specs.Read as spec;
ghost use Rattle.ov_journal.specs.Read.{keys_of, marks_of, valued_of, vector_of};

use crate::word::parse_mark;
use ov_base::{Key, Memory, Sequence, Shared, Value, Version, repeats};
use ov_event::{Valued, items_in_groups};
use ov_functor::Item;
use ov_gossip::{Marks, Vector};
use std::alloc::Global;

/// The most gateways of a vector.
const MOST_GATEWAYS: usize = 8;

/// The most keys of a snapshot.
pub(crate) const MOST_KEYS: usize = 8;

// ---- vectors

/// A vector: a group of marks for each gateway.
pub(crate) fn parse_vector(alloc: Global, groups: &[&[&[u8]]]) -> Result<Option<Vector>, Memory>
    ensures { IfOk result (λ vector. vector ≡ vector_of (groups_in groups.now)) }
{
    match marks_from(alloc, groups)? {
        None => Ok(None),
        Some(marks) => Ok(vector_with(marks.as_slice())),
    }
}

/// The vector of these marks, where they are those of 1 to 8 gateways.
fn vector_with(marks: &[Marks]) -> Option<Vector>
    ensures { result ≡ spec.vector_with marks.now }
{
    if 1 <= marks.len() && marks.len() <= MOST_GATEWAYS {
        Some(Vector::of(marks))
    } else {
        None
    }
}

fn marks_from(alloc: Global, groups: &[&[&[u8]]]) -> Result<Option<Sequence<Marks>>, Memory>
    ensures { IfOk result (λ marks. marks ≡ all_of marks_of (groups_in groups.now)) }
{
    let mut all = Sequence::with_capacity(alloc, groups.len())?;
    for group in groups {
        match parse_marks(group) {
            None => return Ok(None),
            Some(marks) => all.push(marks)?,
        }
    }
    Ok(Some(all))
}

#[tactic(auto, unfolding(crate::specs::Read::marks_of))]
fn parse_marks(words: &[&[u8]]) -> Option<Marks>
    ensures { result ≡ marks_of (words_in words.now) }
{
    match words {
        [low, full, done] => {
            let low = parse_mark(low)?;
            let full = parse_mark(full)?;
            let done = parse_mark(done)?;
            Some(Marks { low, full, done })
        }
        _ => None,
    }
}

// ---- settled values

/// Settled values, one in each group.
pub(crate) fn parse_values(
    alloc: Global,
    groups: &[&[&[u8]]],
) -> Result<Option<Sequence<Valued>>, Memory>
    ensures { IfOk result (λ values. values ≡ all_of valued_of (groups_in groups.now)) }
{
    let mut values = Sequence::with_capacity(alloc, groups.len())?;
    for group in groups {
        match parse_valued(group) {
            None => return Ok(None),
            Some(
                Valued {
                    version,
                    key,
                    value,
                },
            ) => values.push(Valued {
                version,
                key,
                value,
            })?,
        }
    }
    Ok(Some(values))
}

#[tactic(auto, unfolding(crate::specs::Read::valued_of))]
fn parse_valued(words: &[&[u8]]) -> Option<Valued>
    ensures { result ≡ valued_of (words_in words.now) }
{
    match words {
        [version, key, value] => {
            let version = Version::parse(version)?;
            let key = Key::from_bytes(key)?;
            let value = Value::parse(value)?;
            Some(Valued {
                version,
                key,
                value,
            })
        }
        _ => None,
    }
}

// ---- items

/// Items, one in each group.
pub(crate) fn parse_items(
    alloc: Global,
    groups: &[&[&[u8]]],
) -> Result<Option<Shared<Item>>, Memory>
    ensures { IfOk result (λ items. items ≡ all_of item_of (groups_in groups.now)) }
{
    match items_in_groups(alloc, groups)? {
        None => Ok(None),
        Some(items) => Ok(Some(Shared::of(items)?)),
    }
}

// ---- keys

/// The keys of a snapshot: 1 to 8, no two of them equal.
pub(crate) fn parse_keys(alloc: Global, words: &[&[u8]]) -> Result<Option<Sequence<Key>>, Memory>
    ensures { IfOk result (λ keys. keys ≡ keys_of (words_in words.now)) }
{
    match keys_from(alloc, words)? {
        None => Ok(None),
        Some(keys) => Ok(keys_with(keys)),
    }
}

fn keys_with(keys: Sequence<Key>) -> Option<Sequence<Key>>
    ensures { result ≡ spec.keys_with keys }
{
    if 1 <= keys.len() && keys.len() <= MOST_KEYS && !repeats(keys.as_slice()) {
        Some(keys)
    } else {
        None
    }
}

fn keys_from(alloc: Global, words: &[&[u8]]) -> Result<Option<Sequence<Key>>, Memory>
    ensures { IfOk result (λ keys. keys ≡ all_of key_of (words_in words.now)) }
{
    let mut keys = Sequence::with_capacity(alloc, words.len())?;
    for word in words {
        match Key::from_bytes(word) {
            None => return Ok(None),
            Some(key) => keys.push(key)?,
        }
    }
    Ok(Some(keys))
}
