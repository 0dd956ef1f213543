//! Running: a world follows a schedule, and what is then outstanding is done in calm rounds.
ghost use Rattle.std.specs.Prelude.{◌≡◌, ◌<◌, ◌^◌, length, OnOk, OnErr};
ghost use Rattle.ov_world.specs.World.{setting_of};
ghost use Rattle.ov_step.specs.Followed.{with_history};
ghost use Rattle.ov_step.specs.Parts.{IsPart};
ghost use Rattle.ov_follow.specs.Calm.{calm};
ghost use Rattle.ov_follow.specs.Lines.{drive};
ghost use Rattle.ov_top.specs.Ending.{IsPartOf, nothing, run_of, story_of};
ghost use Rattle.ov_top.specs.Headline.{IsRight, IsShort};

use ov_base::Memory;
use ov_script::{Schedule, Script};
use ov_step::{calm, drive};
use ov_topology::Topology;
use ov_world::{Story, World};
use std::alloc::Global;

/// Starts a world, follows the schedule, calms the world and tells the story. On an error, which is always out of memory, the story has some first
/// entries of those. Condition: the story is empty.
pub(crate) fn run(
    alloc: Global,
    topology: Topology,
    script: Script,
    schedule: &Schedule,
    story: &mut Story,
) -> Result<(), Memory>
    requires { story.old ≡ nothing }
    ensures done { OnOk result (story.new ≡ story_of topology script (run_of topology script schedule.now)) }
    ensures part { OnErr result (IsPartOf story.new (story_of topology script (run_of topology script schedule.now))) }
    ensures right { IsRight story.new }
    ensures short { IsShort story.new }
{
    let mut world = World::start(alloc, topology, script)?;
    let done = drive_and_calm(&mut world, schedule);
    assure_numbers(&world);
    world.tell(story);
    done
}

/// Does nothing: where it is called, it is known that the entries of the world can be numbered.
fn assure_numbers(world: &World)
    ensures { length world.now.history < 2 ^ 64 }
{
    let _ = world.entries().len();
}

/// Follows the schedule and calms the world. On an error, which is always out of memory, the history is what it was with some first entries of those
/// that it was to gain.
fn drive_and_calm(world: &mut World, schedule: &Schedule) -> Result<(), Memory>
    ensures done { OnOk result (world.new ≡ with_history (calm (setting_of world.old) (drive (setting_of world.old) world.old.history schedule.now)) world.old) }
    ensures part { OnErr result (IsPart (calm (setting_of world.old) (drive (setting_of world.old) world.old.history schedule.now)) world.old world.new) }
{
    drive(world, schedule)?;
    calm(world)
}
