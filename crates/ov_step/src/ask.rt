//! Settlers ask for rounds: pass 9 of a calm round.
ghost use Rattle.std.specs.Prelude.{OnOk, OnErr};
ghost use Rattle.ov_follow.specs.Passes.{questions};
ghost use Rattle.ov_world.specs.World.{setting_of};
ghost use Rattle.ov_step.specs.Followed.{Followed, FollowedInPart};

use ov_base::Memory;
use ov_topology::{Actor, Mode};
use ov_world::{Act, Line, World};

/// Each settler that has not stopped asks for a quorum round where its visibility watermark is above what it has settled
/// (docs/STORE.md, Calm rounds). On an error, which is always out of memory, some first ones did.
pub(crate) fn ask_all(world: &mut World) -> Result<(), Memory>
    ensures done { OnOk result (Followed (questions (setting_of world.old) world.old.history) world.old world.new) }
    ensures part { OnErr result (FollowedInPart (questions (setting_of world.old) world.old.history) world.old world.new) }
{
    for settler in 0..world.topology().centres() {
        let line = Line {
            actor: Actor::Settler(settler),
            act: Act::Ask { mode: Mode::Quorum },
        };
        match world.follow_line(&line) {
            Ok(_) => {}
            Err(error) => return Err(error),
        }
    }
    Ok(())
}
