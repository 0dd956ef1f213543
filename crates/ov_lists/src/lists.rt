//! Version lists: items in the order of their insertion, and their places in blocks, in the order of key and version.
ghost use Rattle.std.specs.Prelude.{◌≡◌, ℕ, ◌<◌, ◌≤◌, ◌+◌, ◌^◌, [], length, map, insert, IfOk, IsOk, OnOk, OnErr, IsPermutation, vec_len, vec_capacity};
ghost use Rattle.std.specs.Option.{option_map};
ghost use Rattle.std.specs.List.{range_with_len};
ghost use Rattle.ov_lists.specs.Entries.{IsOrdered, Inserts, latest_of, next_key_of, thinned, window_of, shown};
ghost use Rattle.ov_lists.specs.Parts.{flat, place_in, listed, IsWithin, IsIndex, HasRoom};

use crate::blocks::{Blocks, Position};
use crate::filing::insert_place;
use crate::keys::{key_from, key_past};
use crate::refill::refill;
use crate::search::{entry_at, is_taken, position_for, position_of};
use crate::thin::{keep_items, sort_items};
use crate::versioned::Versioned;
use crate::window::{inside, sort_found};
use crate::within::push_within;
use ov_base::{Key, Memory, Version};
use std::alloc::Global;
use std::marker::Model;

/// How many items there are at most: the place of each is a `u32`.
const MOST_ITEMS: usize = u32::MAX as usize;

/// A finite map from keys and versions to items (docs/STORE.md, Version lists). Contracts see the entries in the order of
/// key and then version, and for how many more there is room. There are fewer than 2^32 entries: more are refused as out of
/// memory.
#[derive(Drop)]
pub struct VersionLists<T> {
    items: Vec<Versioned<T>>,
    blocks: Blocks,
    room: usize,
}

impl<T> Model for VersionLists<T> {
    ghost use Rattle.std.specs.Prelude.{vec_len, vec_capacity};
    ghost use Rattle.ov_lists.specs.Entries.{Contents};
    ghost use Rattle.ov_lists.specs.Parts.{listed, IsIndex, HasRoom};

    ghost Value = { Contents T };

    ghost view = { λ a. record { entries = listed a.items.items a.blocks.parts; spare = a.room } };

    ghost invariant = { λ a. IsIndex a.items.items a.blocks.parts × HasRoom a.room (vec_len a.items) (vec_capacity a.items) a.blocks.spare };
}

impl<T> VersionLists<T> {
    /// No entries, and no room. Does not allocate.
    pub fn new(alloc: Global) -> VersionLists<T>
        ensures { result ≡ record { entries = []; spare = 0 } }
    {
        VersionLists {
            items: Vec::new(alloc),
            blocks: Blocks::new(alloc),
            room: 0,
        }
    }

    /// Makes room for so many more entries. On an error nothing has changed.
    pub fn reserve(&mut self, more: usize) -> Result<(), Memory>
        ensures room { OnOk result (more ≤ self.new.spare) }
        ensures more { self.old.spare ≤ self.new.spare }
        ensures entries { self.new.entries ≡ self.old.entries }
        ensures err { OnErr result (self.new ≡ self.old) }
    {
        self.room = make_room(&mut self.items, &mut self.blocks, self.room, more)?;
        Ok(())
    }

    /// Adds an item at a key and version. False exactly where there is one already, and then nothing has changed; on an
    /// error nothing has changed, and the item is dropped. Where room is reserved it does not allocate. The entries are in
    /// order, whatever comes.
    pub fn insert(&mut self, key: Key, version: Version, item: T) -> Result<bool, Memory>
    where
        T: Drop,
        ensures inserts { IfOk result (λ is_new. Inserts self.old self.new (record { key = key; version = version; item = item }) is_new) }
        ensures err { OnErr result (self.new ≡ self.old) }
        ensures succeeds { 0 < self.old.spare → IsOk result }
        ensures ordered { IsOrdered self.new.entries }
    {
        let items = self.items.as_slice();
        let at = position_for(items, &self.blocks, &key, version.number());
        if is_taken(items, &self.blocks, at, &key, version) {
            return Ok(false);
        }
        let room = make_room(&mut self.items, &mut self.blocks, self.room, 1)?;
        let entry = Versioned { key, version, item };
        insert_entry(&mut self.items, &mut self.blocks, at, entry);
        self.room = room - 1;
        Ok(true)
    }

    /// The greatest version of the key below the number, and its item. None exactly where there is none. Does not allocate.
    pub fn latest(&self, key: Key, below: u64) -> Option<(Version, &T)>
        ensures { option_map {U = ℕ × T} (λ p. (p.0, p.1.now)) result ≡ option_map (λ e. (e.version, e.item)) (latest_of key below self.now.entries) }
    {
        let items = self.items.as_slice();
        let at = position_of(items, &self.blocks, &key, below);
        if at.offset == 0 {
            return None;
        }
        let last = Position {
            block: at.block,
            offset: at.offset - 1,
        };
        let entry = entry_at(items, &self.blocks, last);
        if entry.key == key {
            Some((entry.version, &entry.item))
        } else {
            None
        }
    }

    /// Takes out the entries below a number, but for the newest of each key among them where `keep_last`. The answer is how many
    /// went. The entries are in order, whatever comes. Does not allocate, and what was reserved stays.
    pub fn thin(&mut self, below: u64, keep_last: bool) -> u64
    where
        T: Drop,
        ensures entries { self.new.entries ≡ thinned below keep_last self.old.entries }
        ensures gone { result + length self.new.entries ≡ length self.old.entries }
        ensures spare { self.old.spare ≤ self.new.spare }
        ensures ordered { IsOrdered self.new.entries }
    {
        sort_items(&mut self.items);
        let gone = keep_items(&mut self.items, below, keep_last);
        refill(&mut self.blocks, self.items.as_slice().len() as u32);
        gone as u64
    }

    /// The least key that is at least another, or above it where `past`. None exactly where there is none. Does not allocate.
    pub fn next_key(&self, from: Key, past: bool) -> Option<Key>
        ensures { result ≡ next_key_of from past self.now.entries }
    {
        let items = self.items.as_slice();
        if past {
            key_past(items, &self.blocks, &from)
        } else {
            key_from(items, &self.blocks, &from)
        }
    }

    /// All entries from the one number on and below the other, by version and then key. The only error is out of memory.
    pub fn window(&self, from: u64, below: u64) -> Result<Vec<(Version, Key, &T)>, Memory>
        ensures { IfOk result (λ v. map shown v.items ≡ window_of from below self.now.entries) }
    {
        let mut found = inside(
            self.items.as_slice(),
            &self.blocks,
            *self.items.allocator(),
            from,
            below,
        )?;
        sort_found(&mut found);
        Ok(found)
    }
}

/// Makes room for so many more entries, where there was room for some. The answer is for how many there is. More than 2^32 - 1
/// in all are refused as out of memory. On an error there is room for as many as there was.
fn make_room<T>(
    items: &mut Vec<Versioned<T>>,
    blocks: &mut Blocks,
    room: usize,
    more: usize,
) -> Result<usize, Memory>
    requires { HasRoom room (vec_len items.old) (vec_capacity items.old) blocks.old.spare }
    ensures items { items.new.items ≡ items.old.items }
    ensures parts { blocks.new.parts ≡ blocks.old.parts }
    ensures ok { IfOk result (λ grown. HasRoom grown (vec_len items.new) (vec_capacity items.new) blocks.new.spare) }
    ensures more { IfOk result (λ grown. more ≤ grown) }
    ensures grown { IfOk result (λ grown. room ≤ grown) }
    ensures err { OnErr result (HasRoom room (vec_len items.new) (vec_capacity items.new) blocks.new.spare) }
    ensures succeeds { more ≤ room → IsOk result }
{
    if more <= room {
        return Ok(room);
    }
    if more > MOST_ITEMS - items.len() {
        return Err(Memory);
    }
    items.reserve(more)?;
    blocks.reserve(more)?;
    Ok(more)
}

/// Adds an item, and puts its place at a position, where there is room for both, so that nothing is allocated.
fn insert_entry<T: Drop>(
    items: &mut Vec<Versioned<T>>,
    blocks: &mut Blocks,
    at: Position,
    entry: Versioned<T>,
)
    requires index { IsIndex items.old.items blocks.old.parts }
    requires within { IsWithin blocks.old.parts at.block at.offset }
    requires few { vec_len items.old < 2 ^ 32 }
    requires items_room { vec_len items.old < vec_capacity items.old }
    requires blocks_room { 0 < blocks.old.spare }
    ensures entries { listed items.new.items blocks.new.parts ≡ insert (listed items.old.items blocks.old.parts) (place_in blocks.old.parts at.block at.offset) entry }
    ensures all { IsPermutation (range_with_len 0 (length items.new.items)) (flat blocks.new.parts) }
    ensures len { vec_len items.new ≡ vec_len items.old + 1 }
    ensures capacity { vec_capacity items.old ≤ vec_capacity items.new }
    ensures spare { blocks.old.spare ≤ blocks.new.spare + 1 }
{
    let place = push_within(items, entry);
    insert_place(blocks, at, place as u32);
}
