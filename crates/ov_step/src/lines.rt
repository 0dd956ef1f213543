//! Lists of lines, as passes list and follow them.
ghost use Rattle.std.specs.Prelude.{◌≡◌, ◌++◌, map, OnOk, OnErr};
ghost use Rattle.ov_follow.specs.Passes.{running, take};
ghost use Rattle.ov_world.specs.Acts.{line_in};
ghost use Rattle.ov_step.specs.Followed.{Followed, FollowedInPart};

use ov_base::Memory;
use ov_topology::{Actor, Place};
use ov_world::{Act, Line, World};
use std::alloc::Global;

/// The allocator of a world's own memory.
pub(crate) fn allocator_of(world: &World) -> Global {
    let lines = world.script().roster().sessions.empty::<Line>();
    *lines.into_vec().allocator()
}

/// Follows the lines in order. On an error, which is always out of memory, some first ones were followed.
pub(crate) fn follow_all(world: &mut World, lines: &[Line]) -> Result<(), Memory>
    ensures done { OnOk result (Followed (map line_in lines.now) world.old world.new) }
    ensures part { OnErr result (FollowedInPart (map line_in lines.now) world.old world.new) }
{
    for line in lines {
        match world.follow_line(line) {
            Ok(_) => {}
            Err(error) => return Err(error),
        }
    }
    Ok(())
}

/// Puts the line of taking a letter behind the lines, where its actor has not stopped. The only error is out of memory.
pub(crate) fn push_take(
    world: &World,
    actor: Actor,
    place: Place,
    lines: &mut Vec<Line>,
) -> Result<(), Memory>
    ensures { OnOk result (map line_in lines.new.items ≡ map line_in lines.old.items ++ running world.now.history (take actor place.entry place.letter)) }
{
    if world.has_stopped(actor) {
        return Ok(());
    }
    lines.push(Line {
        actor,
        act: Act::Take { place },
    })?;
    Ok(())
}
