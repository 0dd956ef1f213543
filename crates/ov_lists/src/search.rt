//! Positions among entries in order, found by halving.
ghost use Rattle.std.specs.Prelude.{◌≡◌, ◌<◌, ◌≤◌, ◌+◌, ◌-◌, length, slice_index_or};
ghost use Rattle.ov_lists.specs.Entries.{has_pair};
ghost use Rattle.ov_lists.specs.Parts.{part_at, start, place_in, listed, IsWithin, IsIndex};
ghost use Rattle.ov_lists.specs.Places.{AreBefore, AreBehind, IsPlace};

use crate::blocks::{Blocks, Position};
use crate::versioned::Versioned;
use ov_base::{Key, Version};

/// The entry at a position. Condition: there is one.
pub fn entry_at<'a, T>(items: &'a [Versioned<T>], blocks: &Blocks, at: Position) -> &'a Versioned<T>
    requires index { IsIndex items.now blocks.now.parts }
    requires block { at.block < length blocks.now.parts }
    requires offset { at.offset < length (part_at blocks.now.parts at.block) }
    ensures value { result.now ≡ slice_index_or (listed items.now blocks.now.parts) (place_in blocks.now.parts at.block at.offset) result.now }
    ensures within { place_in blocks.now.parts at.block at.offset < length (listed items.now blocks.now.parts) }
{
    &items[blocks.place(at) as usize]
}

/// The position of a key and number: the entries before it stand before them, and no others. It is behind an entry of its
/// block, or the front of all.
pub fn position_of<T>(items: &[Versioned<T>], blocks: &Blocks, key: &Key, number: u64) -> Position
    requires { IsIndex items.now blocks.now.parts }
    ensures place { IsPlace key.now number (listed items.now blocks.now.parts) (place_in blocks.now.parts result.block result.offset) }
    ensures within { IsWithin blocks.now.parts result.block result.offset }
    ensures front { result.offset ≡ 0 → result.block ≡ 0 }
{
    let next = block_behind(items, blocks, key, number);
    if next == 0 {
        return Position {
            block: 0,
            offset: 0,
        };
    }
    let block = next - 1;
    Position {
        block,
        offset: offset_of(items, blocks, block, key, number),
    }
}

/// The same, found at once where all entries stand before them.
pub fn position_for<T>(items: &[Versioned<T>], blocks: &Blocks, key: &Key, number: u64) -> Position
    requires { IsIndex items.now blocks.now.parts }
    ensures place { IsPlace key.now number (listed items.now blocks.now.parts) (place_in blocks.now.parts result.block result.offset) }
    ensures within { IsWithin blocks.now.parts result.block result.offset }
{
    let count = blocks.count();
    if count > 0 {
        let block = count - 1;
        let len = blocks.len_of(block);
        let last = Position {
            block,
            offset: len - 1,
        };
        if entry_at(items, blocks, last).is_before(key, number) {
            return Position { block, offset: len };
        }
    }
    position_of(items, blocks, key, number)
}

/// The same, sought in the block of an entry that stands before them, and among all where it is not there.
pub fn position_near<T>(
    items: &[Versioned<T>],
    blocks: &Blocks,
    at: Position,
    key: &Key,
    number: u64,
) -> Position
    requires index { IsIndex items.now blocks.now.parts }
    requires block { at.block < length blocks.now.parts }
    requires offset { at.offset < length (part_at blocks.now.parts at.block) }
    requires before { AreBefore key.now number (listed items.now blocks.now.parts) (place_in blocks.now.parts at.block at.offset + 1) }
    ensures place { IsPlace key.now number (listed items.now blocks.now.parts) (place_in blocks.now.parts result.block result.offset) }
    ensures within { IsWithin blocks.now.parts result.block result.offset }
{
    let block = at.block;
    let last = Position {
        block,
        offset: blocks.len_of(block) - 1,
    };
    if entry_at(items, blocks, last).is_before(key, number) {
        return position_of(items, blocks, key, number);
    }
    Position {
        block,
        offset: offset_of(items, blocks, block, key, number),
    }
}

/// The first block whose first entry does not stand before a key and number.
fn block_behind<T>(items: &[Versioned<T>], blocks: &Blocks, key: &Key, number: u64) -> usize
    requires { IsIndex items.now blocks.now.parts }
    ensures within { result ≤ length blocks.now.parts }
    ensures before { 0 < result → AreBefore key.now number (listed items.now blocks.now.parts) (start blocks.now.parts (result - 1) + 1) }
    ensures behind { AreBehind key.now number (listed items.now blocks.now.parts) (start blocks.now.parts result) }
{
    let mut low = 0;
    let mut high = blocks.count();
    while low < high {
        let middle = low + (high - low) / 2;
        let first = Position {
            block: middle,
            offset: 0,
        };
        if entry_at(items, blocks, first).is_before(key, number) {
            low = middle + 1;
        } else {
            high = middle;
        }
    }
    low
}

/// The offset of a key and number in a block of which the first entry stands before them, and those behind the block do not.
fn offset_of<T>(
    items: &[Versioned<T>],
    blocks: &Blocks,
    block: usize,
    key: &Key,
    number: u64,
) -> usize
    requires index { IsIndex items.now blocks.now.parts }
    requires block { block < length blocks.now.parts }
    requires before { AreBefore key.now number (listed items.now blocks.now.parts) (start blocks.now.parts block + 1) }
    requires behind { AreBehind key.now number (listed items.now blocks.now.parts) (start blocks.now.parts (block + 1)) }
    ensures place { IsPlace key.now number (listed items.now blocks.now.parts) (place_in blocks.now.parts block result) }
    ensures some { 0 < result }
    ensures within { result ≤ length (part_at blocks.now.parts block) }
{
    let places = blocks.places(block);
    let mut low = 1;
    let mut high = places.len();
    while low < high {
        let middle = low + (high - low) / 2;
        if items[places[middle] as usize].is_before(key, number) {
            low = middle + 1;
        } else {
            high = middle;
        }
    }
    low
}

/// Whether there is an entry of this key and version, of which the position was found.
pub fn is_taken<T>(
    items: &[Versioned<T>],
    blocks: &Blocks,
    at: Position,
    key: &Key,
    version: Version,
) -> bool
    requires index { IsIndex items.now blocks.now.parts }
    requires within { IsWithin blocks.now.parts at.block at.offset }
    requires place { IsPlace key.now version (listed items.now blocks.now.parts) (place_in blocks.now.parts at.block at.offset) }
    ensures { result ≡ has_pair key.now version (listed items.now blocks.now.parts) }
{
    let at = blocks.forward(at);
    if at.block >= blocks.count() {
        return false;
    }
    entry_at(items, blocks, at).is_at(key, version)
}
