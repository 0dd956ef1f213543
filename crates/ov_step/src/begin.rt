//! Sessions begin their next commands: pass 2 of a calm round.
ghost use Rattle.std.specs.Prelude.{◌≡◌, ◌<◌, length, Some, OnOk, OnErr};
ghost use Rattle.ov_follow.specs.Lines.{begin_of};
ghost use Rattle.ov_follow.specs.Passes.{begins};
ghost use Rattle.ov_world.specs.Acts.{line_in};
ghost use Rattle.ov_world.specs.World.{setting_of};
ghost use Rattle.ov_step.specs.Followed.{Followed, FollowedInPart};

use ov_base::Memory;
use ov_session::Roster;
use ov_topology::Actor;
use ov_world::{Act, Line, World};

/// Each session whose next command may begin begins it, at clock 0 (docs/STORE.md, Calm rounds). On an error, which is
/// always out of memory, some first ones did.
pub(crate) fn begin_all(world: &mut World) -> Result<(), Memory>
    ensures done { OnOk result (Followed (begins (setting_of world.old) world.old.history) world.old world.new) }
    ensures part { OnErr result (FollowedInPart (begins (setting_of world.old) world.old.history) world.old world.new) }
{
    for session in 0..world.script().roster().sessions.len() {
        let line = begin_line(world.script().roster(), session as u32);
        match world.follow_line(&line) {
            Ok(_) => {}
            Err(error) => return Err(error),
        }
    }
    Ok(())
}

/// The line by which the next command of the session of a number begins, at clock 0. Condition: there is such a session.
/// Does not allocate.
fn begin_line(roster: &Roster, session: u32) -> Line
    requires { session < length roster.now.sessions }
    ensures { begin_of roster.now 0 session ≡ Some (line_in result) }
{
    let plan = &roster.sessions.as_slice()[session as usize];
    Line {
        actor: Actor::Gate(plan.gate),
        act: Act::Begin { session, clock: 0 },
    }
}
