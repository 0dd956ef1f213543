//! Places in blocks, and the blocks in an order.
ghost use Rattle.std.specs.Prelude.{◌≡◌, ◌<◌, ◌≤◌, ◌+◌, ◌*◌, length, insert, take, drop, [], slice_index_or, slice_set, OnOk};
ghost use Rattle.ov_lists.specs.Parts.{flat, part_at, place_in, AreSome, IsWithin, IsAt};

use crate::block::Block;
use crate::within::{insert_within, push_within};
use ov_base::Memory;
use std::alloc::Global;
use std::marker::Model;

/// A place in blocks: the number of a block in the order, and an offset in the block.
#[derive(Clone, Copy)]
pub struct Position {
    pub block: usize,
    pub offset: usize,
}

/// A list of places, cut into blocks of 1 to 32. Contracts see the places of each block in the order, and for how many more
/// blocks there is room.
#[derive(Drop)]
pub struct Blocks {
    blocks: Vec<Block>,
    order: Vec<usize>,
}

impl Model for Blocks {
    ghost use Rattle.std.specs.Prelude.{min, ◌-◌, vec_len, vec_capacity};
    ghost use Rattle.ov_lists.specs.Parts.{Cut, IsFiled, in_order};

    ghost Value = { Cut };

    ghost view = { λ a. record {
      parts = in_order a.blocks.items a.order.items;
      spare = min (vec_capacity a.blocks - vec_len a.blocks) (vec_capacity a.order - vec_len a.order);
    } };

    ghost invariant = { λ a. IsFiled a.blocks.items a.order.items };
}

impl Blocks {
    /// No blocks, and no room. Does not allocate.
    pub fn new(alloc: Global) -> Blocks
        ensures { result ≡ record { parts = []; spare = 0 } }
    {
        Blocks {
            blocks: Vec::new(alloc),
            order: Vec::new(alloc),
        }
    }

    /// Makes room for so many more blocks. On an error no place has changed, and there is no less room than before.
    pub fn reserve(&mut self, more: usize) -> Result<(), Memory>
        ensures room { OnOk result (more ≤ self.new.spare) }
        ensures more { self.old.spare ≤ self.new.spare }
        ensures parts { self.new.parts ≡ self.old.parts }
    {
        self.blocks.reserve(more)?;
        self.order.reserve(more)?;
        Ok(())
    }

    /// How many blocks there are. None of them is empty.
    pub fn count(&self) -> usize
        ensures value { result ≡ length self.now.parts }
        ensures some { AreSome self.now.parts }
    {
        self.order.len()
    }

    /// The places of a block, 1 to 32. Condition: there is that block.
    pub fn places(&self, block: usize) -> &[u32]
        requires { block < length self.now.parts }
        ensures value { result.now ≡ part_at self.now.parts block }
        ensures some { 0 < length result.now }
        ensures fits { length result.now ≤ 32 }
    {
        self.blocks[self.order[block]].places()
    }

    /// How many places a block has. Condition: there is that block.
    pub fn len_of(&self, block: usize) -> usize
        requires { block < length self.now.parts }
        ensures value { result ≡ length (part_at self.now.parts block) }
        ensures some { 0 < result }
        ensures fits { result ≤ 32 }
    {
        self.places(block).len()
    }

    /// The place at a position. Condition: there is one.
    pub fn place(&self, at: Position) -> u32
        requires block { at.block < length self.now.parts }
        requires offset { at.offset < length (part_at self.now.parts at.block) }
        ensures value { result ≡ slice_index_or (flat self.now.parts) (place_in self.now.parts at.block at.offset) result }
        ensures within { place_in self.now.parts at.block at.offset < length (flat self.now.parts) }
    {
        self.places(at.block)[at.offset]
    }

    /// The same position, which is the front of the next block where it is behind the last place of one.
    pub fn forward(&self, at: Position) -> Position
        requires { IsWithin self.now.parts at.block at.offset }
        ensures same { place_in self.now.parts result.block result.offset ≡ place_in self.now.parts at.block at.offset }
        ensures at { IsAt self.now.parts result.block result.offset }
    {
        if at.block < self.count() && at.offset == self.len_of(at.block) {
            Position {
                block: at.block + 1,
                offset: 0,
            }
        } else {
            at
        }
    }

    /// The position of the first place, or the end.
    pub fn first(&self) -> Position
        ensures first { place_in self.now.parts result.block result.offset ≡ 0 }
        ensures at { IsAt self.now.parts result.block result.offset }
    {
        self.forward(Position {
            block: 0,
            offset: 0,
        })
    }

    /// The position of the next place, or the end. Condition: there is a place at this one.
    pub fn after(&self, at: Position) -> Position
        requires block { at.block < length self.now.parts }
        requires offset { at.offset < length (part_at self.now.parts at.block) }
        ensures next { place_in self.now.parts result.block result.offset ≡ place_in self.now.parts at.block at.offset + 1 }
        ensures at { IsAt self.now.parts result.block result.offset }
    {
        let len = self.len_of(at.block);
        self.forward(Position {
            block: at.block,
            offset: at.offset + 1,
        })
    }

    /// Puts a place at a position, up to the end of the block. Condition: there is that block, and it has room.
    pub fn put(&mut self, at: Position, place: u32)
        requires block { at.block < length self.old.parts }
        requires offset { at.offset ≤ length (part_at self.old.parts at.block) }
        requires room { length (part_at self.old.parts at.block) < 32 }
        ensures parts { self.new.parts ≡ slice_set self.old.parts at.block (insert (part_at self.old.parts at.block) at.offset place) }
        ensures spare { self.new.spare ≡ self.old.spare }
    {
        let number = self.order[at.block];
        self.blocks[number].insert(at.offset, place);
    }

    /// Puts a block of 1 to 32 places into the order, up to its end. Condition: there is room.
    pub fn add(&mut self, at: usize, block: Block)
        requires within { at ≤ length self.old.parts }
        requires some { 0 < length block }
        requires short { length block ≤ 32 }
        requires room { 0 < self.old.spare }
        ensures parts { self.new.parts ≡ insert self.old.parts at block }
        ensures spare { self.old.spare ≤ self.new.spare + 1 }
    {
        let number = push_within(&mut self.blocks, block);
        insert_within(&mut self.order, at, number);
    }

    /// Takes all blocks out, and keeps their room.
    pub fn clear(&mut self)
        ensures parts { self.new.parts ≡ [] }
        ensures spare { self.old.spare + length self.old.parts ≤ self.new.spare }
        ensures most { length (flat self.old.parts) ≤ 32 * length self.old.parts }
    {
        self.blocks.clear();
        self.order.clear();
    }

    /// Leaves the lower half in a block, and puts the upper one behind it. The answer is the number of that. Conditions: the
    /// block is full, and there is room.
    pub fn split(&mut self, at: usize) -> usize
        requires within { at < length self.old.parts }
        requires full { length (part_at self.old.parts at) ≡ 32 }
        requires room { 0 < self.old.spare }
        ensures next { result ≡ at + 1 }
        ensures parts { self.new.parts ≡ insert (slice_set self.old.parts at (take 16 (part_at self.old.parts at))) (at + 1) (drop 16 (part_at self.old.parts at)) }
        ensures spare { self.old.spare ≤ self.new.spare + 1 }
    {
        let number = self.order[at];
        let upper = self.blocks[number].split();
        let next = at + 1;
        self.add(next, upper);
        next
    }
}
