//! Settlers settle their rounds: pass 12 of a calm round.
ghost use Rattle.std.specs.Prelude.{OnOk, OnErr};
ghost use Rattle.ov_follow.specs.Passes.{settlements};
ghost use Rattle.ov_world.specs.World.{setting_of};
ghost use Rattle.ov_step.specs.Followed.{Followed, FollowedInPart};

use ov_base::Memory;
use ov_topology::Actor;
use ov_world::{Act, Line, World};

/// Each settler that has not stopped settles its open round where that has answers enough (docs/STORE.md, Calm rounds).
/// On an error, which is always out of memory, some first ones did.
pub(crate) fn settle_all(world: &mut World) -> Result<(), Memory>
    ensures done { OnOk result (Followed (settlements (setting_of world.old) world.old.history) world.old world.new) }
    ensures part { OnErr result (FollowedInPart (settlements (setting_of world.old) world.old.history) world.old world.new) }
{
    for settler in 0..world.topology().centres() {
        let line = Line {
            actor: Actor::Settler(settler),
            act: Act::Settle,
        };
        match world.follow_line(&line) {
            Ok(_) => {}
            Err(error) => return Err(error),
        }
    }
    Ok(())
}
