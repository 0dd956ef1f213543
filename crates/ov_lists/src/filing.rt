//! One more place in blocks.
ghost use Rattle.std.specs.Prelude.{◌≡◌, ◌<◌, ◌≤◌, ◌+◌, length, insert};
ghost use Rattle.ov_lists.specs.Parts.{flat, part_at, place_in, IsWithin};

use crate::block::{BLOCK_ROOM, Block, HALF_ROOM};
use crate::blocks::{Blocks, Position};

/// Puts a place at a position. A full block is split, but for a place behind its last, which goes to the front of the next
/// block or into one of its own. Condition: there is room for one more block.
pub fn insert_place(blocks: &mut Blocks, at: Position, place: u32)
    requires within { IsWithin blocks.old.parts at.block at.offset }
    requires room { 0 < blocks.old.spare }
    ensures places { flat blocks.new.parts ≡ insert (flat blocks.old.parts) (place_in blocks.old.parts at.block at.offset) place }
    ensures spare { blocks.old.spare ≤ blocks.new.spare + 1 }
{
    if blocks.count() == 0 {
        blocks.add(0, Block::of(place));
        return;
    }
    let len = blocks.len_of(at.block);
    if len < BLOCK_ROOM {
        blocks.put(at, place);
    } else if at.offset == len {
        insert_behind(blocks, at.block, place);
    } else {
        insert_inside(blocks, at, place);
    }
}

/// Puts a place behind a block: to the front of the next, where that has room, and else into one of its own.
fn insert_behind(blocks: &mut Blocks, block: usize, place: u32)
    requires there { block < length blocks.old.parts }
    requires room { 0 < blocks.old.spare }
    ensures places { flat blocks.new.parts ≡ insert (flat blocks.old.parts) (place_in blocks.old.parts block (length (part_at blocks.old.parts block))) place }
    ensures spare { blocks.old.spare ≤ blocks.new.spare + 1 }
{
    let count = blocks.count();
    let next = block + 1;
    if next < count && blocks.len_of(next) < BLOCK_ROOM {
        blocks.put(
            Position {
                block: next,
                offset: 0,
            },
            place,
        );
    } else {
        blocks.add(next, Block::of(place));
    }
}

/// Splits a full block, and puts a place into the half where it belongs.
fn insert_inside(blocks: &mut Blocks, at: Position, place: u32)
    requires there { at.block < length blocks.old.parts }
    requires within { at.offset ≤ 32 }
    requires full { length (part_at blocks.old.parts at.block) ≡ 32 }
    requires room { 0 < blocks.old.spare }
    ensures places { flat blocks.new.parts ≡ insert (flat blocks.old.parts) (place_in blocks.old.parts at.block at.offset) place }
    ensures spare { blocks.old.spare ≤ blocks.new.spare + 1 }
{
    let next = blocks.split(at.block);
    if at.offset <= HALF_ROOM {
        blocks.put(at, place);
    } else {
        let upper = Position {
            block: next,
            offset: at.offset - HALF_ROOM,
        };
        blocks.put(upper, place);
    }
}
