//! Wanted replies are computed: pass 13 of a calm round.
ghost use Rattle.std.specs.Prelude.{OnOk, OnErr};
ghost use Rattle.ov_follow.specs.Passes.{results};
ghost use Rattle.ov_world.specs.World.{setting_of};
ghost use Rattle.ov_step.specs.Deeds.{AllDone};
ghost use Rattle.ov_step.specs.Followed.{Followed, FollowedInPart};
ghost use Rattle.ov_step.specs.Wants.{AreWants};

use crate::deeds::{Deed, Deeds};
use crate::wants::Wants;
use ov_base::Memory;
use ov_topology::{Actor, Place};
use ov_world::{Act, Line, World};

/// Each settler that has not stopped takes what wants a reply, where the command is not replied and it can compute the reply (docs/STORE.md, Calm
/// rounds). Conditions: these are the deeds of the world's history, and what of it wants a reply. On an error, which is always out of memory, some first
/// ones were taken.
pub(crate) fn result_all(world: &mut World, deeds: &Deeds, wants: &Wants) -> Result<(), Memory>
    requires deeds { AllDone world.old.history deeds.now }
    requires wants { AreWants world.old.topology world.old.history wants.now }
    ensures done { OnOk result (Followed (results (setting_of world.old) world.old.history) world.old world.new) }
    ensures part { OnErr result (FollowedInPart (results (setting_of world.old) world.old.history) world.old world.new) }
{
    for want in wants.as_slice() {
        if deeds.has(Deed::Replied {
            session: want.session,
            seq: want.seq,
        }) {
            continue;
        }
        let line = Line {
            actor: Actor::Settler(want.settler),
            act: Act::Take {
                place: Place {
                    entry: want.entry,
                    letter: want.letter,
                },
            },
        };
        match world.follow_line(&line) {
            Ok(_) => {}
            Err(error) => return Err(error),
        }
    }
    Ok(())
}
