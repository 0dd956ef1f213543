//! All places filed anew.
ghost use Rattle.std.specs.Prelude.{◌≡◌, ◌≤◌, length};
ghost use Rattle.std.specs.List.{range_with_len};
ghost use Rattle.ov_lists.specs.Parts.{flat};

use crate::block::{BLOCK_ROOM, Block};
use crate::blocks::Blocks;

/// Files so many places anew, in their order and in full blocks. Condition: they are no more than were filed. Does not allocate.
pub fn refill(blocks: &mut Blocks, count: u32)
    requires { count ≤ length (flat blocks.old.parts) }
    ensures places { flat blocks.new.parts ≡ range_with_len 0 count }
    ensures spare { blocks.old.spare ≤ blocks.new.spare }
{
    blocks.clear();
    let mut number = 0;
    let mut done = 0;
    while done < count {
        let size = (count - done).min(BLOCK_ROOM as u32);
        blocks.add(number, Block::run(done, size));
        number += 1;
        done += size;
    }
}
