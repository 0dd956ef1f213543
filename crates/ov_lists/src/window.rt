//! The entries of a window.
ghost use Rattle.std.specs.Prelude.{◌≡◌, ◌<◌, ◌+◌, length, map, IfOk};
ghost use Rattle.std.specs.Cmp.Lexicographic.{slice_cmp};
ghost use Rattle.std.specs.List.{filter};
ghost use Rattle.std.specs.Ordering.{nat_cmp, ordering_then};
ghost use Rattle.ov_lists.specs.Entries.{IsOrdered, is_inside, by_version, shown};
ghost use Rattle.ov_lists.specs.Parts.{part_at, place_in, listed, IsIndex, IsAt};
ghost use Rattle.ov_lists.specs.Places.{AreOutside, Passes};

use crate::blocks::{Blocks, Position};
use crate::search::{entry_at, position_near};
use crate::versioned::{PAST_ALL, Versioned};
use ov_base::{Key, Memory, Version};
use std::alloc::Global;
use std::cmp::Ordering;

/// The entries inside a window, in the order of the list: from key to key, past what lies outside.
pub fn inside<'a, T>(
    items: &'a [Versioned<T>],
    blocks: &Blocks,
    alloc: Global,
    from: u64,
    below: u64,
) -> Result<Vec<(Version, Key, &'a T)>, Memory>
    requires { IsIndex items.now blocks.now.parts }
    ensures { IfOk result (λ v. map shown v.items ≡ filter (is_inside from below) (listed items.now blocks.now.parts)) }
{
    let mut found = Vec::new(alloc);
    let mut at = blocks.first();
    while at.block < blocks.count() {
        let entry = entry_at(items, blocks, at);
        if entry.is_inside(from, below) {
            if found.push((entry.version, entry.key, &entry.item)).is_err() {
                return Err(Memory);
            }
            at = blocks.after(at);
        } else {
            at = next_position(items, blocks, at, from, below);
        }
    }
    Ok(found)
}

/// From an entry outside a window, a later position before which nothing lies in the window: that of the next entry, or, where
/// that is of the same key, the one behind those of the key that lie outside.
fn next_position<T>(
    items: &[Versioned<T>],
    blocks: &Blocks,
    at: Position,
    from: u64,
    below: u64,
) -> Position
    requires index { IsIndex items.now blocks.now.parts }
    requires block { at.block < length blocks.now.parts }
    requires offset { at.offset < length (part_at blocks.now.parts at.block) }
    requires outside { AreOutside from below (listed items.now blocks.now.parts) (place_in blocks.now.parts at.block at.offset) (place_in blocks.now.parts at.block at.offset + 1) }
    ensures passes { Passes from below (listed items.now blocks.now.parts) (place_in blocks.now.parts at.block at.offset) (place_in blocks.now.parts result.block result.offset) }
    ensures at { IsAt blocks.now.parts result.block result.offset }
{
    let entry = entry_at(items, blocks, at);
    let next = blocks.after(at);
    if next.block >= blocks.count() || entry_at(items, blocks, next).key != entry.key {
        return next;
    }
    if entry.version.number() < from {
        blocks.forward(position_near(items, blocks, at, &entry.key, from))
    } else {
        blocks.forward(position_near(items, blocks, at, &entry.key, PAST_ALL))
    }
}

/// How two entries compare by version, and of one version by key.
pub fn compare_found<T>(left: &(Version, Key, &T), right: &(Version, Key, &T)) -> Ordering
    ensures { result ≡ ordering_then (nat_cmp left.now.0 right.now.0) (slice_cmp nat_cmp left.now.1 right.now.1) }
{
    match left.0.cmp(&right.0) {
        Ordering::Less => Ordering::Less,
        Ordering::Equal => left.1.cmp(&right.1),
        Ordering::Greater => Ordering::Greater,
    }
}

/// Sorts what was found by version and then key.
pub fn sort_found<T>(found: &mut Vec<(Version, Key, &T)>)
    requires { IsOrdered (map shown found.old.items) }
    ensures { map shown found.new.items ≡ by_version (map shown found.old.items) }
{
    found.sort_unstable_by(|left, right| compare_found(left, right));
}
