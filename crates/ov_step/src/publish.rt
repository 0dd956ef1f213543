//! Gateways publish: the passes 5 and 7 of a calm round.
ghost use Rattle.std.specs.Prelude.{OnOk, OnErr};
ghost use Rattle.ov_follow.specs.Passes.{publishes};
ghost use Rattle.ov_world.specs.World.{setting_of};
ghost use Rattle.ov_step.specs.Followed.{Followed, FollowedInPart};

use ov_base::Memory;
use ov_topology::Actor;
use ov_world::{Act, Line, World};

/// Each gateway that has not stopped publishes, at clock 0 (docs/STORE.md, Calm rounds). On an error, which is always out of memory,
/// some first ones did.
pub(crate) fn publish_all(world: &mut World) -> Result<(), Memory>
    ensures done { OnOk result (Followed (publishes (setting_of world.old) world.old.history) world.old world.new) }
    ensures part { OnErr result (FollowedInPart (publishes (setting_of world.old) world.old.history) world.old world.new) }
{
    for gate in 0..world.topology().gateways() {
        let line = Line {
            actor: Actor::Gate(gate),
            act: Act::Publish { clock: 0 },
        };
        match world.follow_line(&line) {
            Ok(_) => {}
            Err(error) => return Err(error),
        }
    }
    Ok(())
}
