//! Calm rounds.
ghost use Rattle.std.specs.Prelude.{◌≡◌, ◌≤◌, ◌+◌, OnOk, OnErr};
ghost use Rattle.ov_session.specs.Standing.{IsRoster};
ghost use Rattle.ov_follow.specs.Calm.{calm, count};
ghost use Rattle.ov_world.specs.World.{setting_of};
ghost use Rattle.ov_step.specs.Followed.{with_history};
ghost use Rattle.ov_step.specs.Parts.{IsPart};

use crate::outstanding::Outstanding;
use ov_base::Memory;
use ov_session::{MOST_COMMANDS, Roster};
use ov_world::World;

/// Does what is outstanding, in calm rounds (docs/STORE.md, Calm rounds), until every command is replied or a round replies to none: at most one round
/// more than the script has commands. On an error, which is always out of memory, the history is what it was with some first entries of
/// those that it was to gain.
pub fn calm(world: &mut World) -> Result<(), Memory>
    ensures done { OnOk result (world.new ≡ with_history (calm (setting_of world.old) world.old.history) world.old) }
    ensures part { OnErr result (IsPart (calm (setting_of world.old) world.old.history) world.old world.new) }
{
    let mut kept = Outstanding::of(world)?;
    for _ in 0..rounds_enough(world.script().roster()) {
        if kept.are_all_replied(world) {
            return Ok(());
        }
        let before = kept.replies;
        match kept.round(world) {
            Ok(()) => {}
            Err(error) => return Err(error),
        }
        if kept.replies == before {
            return Ok(());
        }
    }
    Ok(())
}

/// As many rounds as are enough: more than there are commands, since each round but the last replies to one. Condition: the roster fits. Does not
/// allocate.
fn rounds_enough(roster: &Roster) -> u64
    requires { IsRoster roster.now }
    ensures { count roster.now.sessions + 1 ≤ result }
{
    roster.sessions.len() as u64 * MOST_COMMANDS as u64 + 1
}
