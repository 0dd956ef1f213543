//! A block of places.
ghost use Rattle.std.specs.Prelude.{◌≡◌, ◌<◌, ◌≤◌, ◌+◌, ◌^◌, length, insert, take, drop, [], ◌∷◌};
ghost use Rattle.std.specs.List.{range_with_len};

use arrayvec::ArrayVec;
use std::marker::Model;

/// How many places a block has at most.
pub const BLOCK_ROOM: usize = 32;

/// How many places stay in a block that is split.
pub const HALF_ROOM: usize = 16;

/// At most 32 places, in an order. Contracts see their list.
#[derive(Drop)]
pub struct Block {
    places: ArrayVec<u32, 32>,
}

impl Model for Block {
    ghost use Rattle.std.specs.Prelude.{ℕ, List, ◌≤◌, length};

    ghost Value = { List ℕ };

    ghost view = { λ b. b.places.items };

    ghost invariant = { λ b. length b.places.items ≤ 32 };
}

impl Block {
    /// The block of one place.
    pub fn of(place: u32) -> Block
        ensures { result ≡ place ∷ [] }
    {
        let mut places = ArrayVec::new();
        places.push(place);
        Block { places }
    }

    /// The block of so many places from one on. Condition: they are at most 32.
    pub fn run(start: u32, size: u32) -> Block
        requires short { size ≤ 32 }
        requires end { start + size < 2 ^ 32 }
        ensures { result ≡ range_with_len start size }
    {
        let mut places = ArrayVec::new();
        for place in start..start + size {
            places.push(place);
        }
        Block { places }
    }

    /// Its places.
    pub fn places(&self) -> &[u32]
        ensures value { result.now ≡ self.now }
        ensures fits { length result.now ≤ 32 }
    {
        self.places.as_slice()
    }

    /// Puts a place at an offset, up to the end. Condition: the block has room.
    pub fn insert(&mut self, offset: usize, place: u32)
        requires within { offset ≤ length self.old }
        requires room { length self.old < 32 }
        ensures { self.new ≡ insert self.old offset place }
    {
        self.places.insert(offset, place);
    }

    /// Keeps the lower half, and answers the upper one. Condition: the block is full.
    pub fn split(&mut self) -> Block
        requires { length self.old ≡ 32 }
        ensures lower { self.new ≡ take 16 self.old }
        ensures upper { result ≡ drop 16 self.old }
    {
        let mut upper = ArrayVec::new();
        let _ = upper.try_extend_from_slice(&self.places.as_slice()[HALF_ROOM..]);
        self.places.truncate(HALF_ROOM);
        Block { places: upper }
    }
}
