//! Schedules.
ghost use Rattle.std.specs.Prelude.{OnOk, OnErr};
ghost use Rattle.ov_step.specs.Followed.{Driven, DrivenInPart};

use ov_base::Memory;
use ov_script::Schedule;
use ov_world::World;

/// Follows the lines of a schedule in order (docs/STORE.md, What a schedule's line does): a line that gives no entry is passed over. On an error,
/// which is always out of memory, some first lines were followed.
pub fn drive(world: &mut World, schedule: &Schedule) -> Result<(), Memory>
    ensures driven { OnOk result (Driven schedule.now world.old world.new) }
    ensures part { OnErr result (DrivenInPart schedule.now world.old world.new) }
{
    for step in schedule.steps() {
        match world.follow(step) {
            Ok(_) => {}
            Err(error) => return Err(error),
        }
    }
    Ok(())
}
