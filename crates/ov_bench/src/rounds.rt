//! Calm rounds, and the lines that they followed as a schedule.
use crate::task::Task;
use anyhow::{Context, Result, bail};
use ov_event::{Entry, Kind};
use ov_script::{Script, Step};
use ov_step::calm;
use ov_topology::{Actor, Place, Topology};
use ov_world::World;
use std::fs;

/// The topology of the first file, and the script of the second.
fn work_of(rt: &HostRuntime, task: &Task) -> Result<(Topology, Script)> {
    let [topology, script, ..] = task.words else {
        bail!("TOPOLOGY SCRIPT");
    };
    let text = fs::read_to_string(rt, topology.as_str())?;
    let Ok(topology) = Topology::read(rt.alloc(), text.as_bytes()) else {
        bail!("no topology");
    };
    let text = fs::read_to_string(rt, script.as_str())?;
    let Ok(script) = Script::read(rt.alloc(), text.as_bytes(), topology.gateways()) else {
        bail!("no script");
    };
    Ok((topology, script))
}

/// Calms a world in which nothing was done so often; how many entries it then has.
pub fn calmed(rt: &HostRuntime, task: &Task) -> Result<usize> {
    let (topology, script) = work_of(rt, task)?;
    let mut count = 0;
    for _ in 0..task.times {
        let mut world = started(rt, &topology, &script)?;
        let Ok(()) = calm(&mut world) else {
            bail!("out of memory");
        };
        count = world.entries().len();
    }
    Ok(count)
}

/// Follows so often, from the start, the lines that calm rounds followed and that gave an entry; how many entries there then are.
pub fn driven(rt: &HostRuntime, task: &Task) -> Result<usize> {
    let (topology, script) = work_of(rt, task)?;
    let mut world = started(rt, &topology, &script)?;
    let Ok(()) = calm(&mut world) else {
        bail!("out of memory");
    };
    let steps = steps_of(rt, &script, world.entries())?;
    let mut count = 0;
    for _ in 0..task.times {
        count = followed(started(rt, &topology, &script)?, steps.as_slice())?;
    }
    Ok(count)
}

/// Follows the steps; how many entries there then are.
fn followed(mut world: World, steps: &[Step]) -> Result<usize> {
    for step in steps {
        if world.follow(step).is_err() {
            bail!("out of memory");
        }
    }
    Ok(world.entries().len())
}

/// The steps that give these entries.
fn steps_of(rt: &HostRuntime, script: &Script, entries: &[Entry]) -> Result<Vec<Step>> {
    let mut steps = Vec::with_capacity(rt.alloc(), entries.len())?;
    for entry in entries {
        if let Some(step) = step_of(script, entry) {
            steps.push(step)?;
        }
    }
    Ok(steps)
}

/// The step that gives an entry of a calm round.
fn step_of(script: &Script, entry: &Entry) -> Option<Step> {
    match (&entry.kind, entry.actor) {
        (Kind::Began { session, .. }, _) => {
            let plan = script.roster().sessions.as_slice().get(*session as usize)?;
            Some(Step::Begin {
                session: plan.name,
                clock: 0,
            })
        }
        (Kind::Published { .. }, Actor::Gate(gate)) => Some(Step::Publish { gate, clock: 0 }),
        (Kind::Asked { mode, .. }, Actor::Settler(settler)) => Some(Step::Ask {
            settler,
            mode: *mode,
        }),
        (Kind::Settled { .. }, Actor::Settler(settler)) => Some(Step::Settle { settler }),
        (kind, actor) => Some(Step::Take {
            actor,
            place: place_of(kind)?,
        }),
    }
}

/// The place of the letter that is taken by an entry of this kind.
fn place_of(kind: &Kind) -> Option<Place> {
    match kind {
        Kind::Stored { place, .. }
        | Kind::Acked { place, .. }
        | Kind::Heard { place, .. }
        | Kind::Answered { place, .. }
        | Kind::Taken { place, .. }
        | Kind::Resulted { place, .. }
        | Kind::Replied { place, .. }
        | Kind::Told { place, .. } => Some(*place),
        _ => None,
    }
}

/// The world of the topology and the script in which nothing was done.
fn started(rt: &HostRuntime, topology: &Topology, script: &Script) -> Result<World> {
    let (Ok(topology), Ok(script)) = (topology.copy(), script.copy()) else {
        bail!("out of memory");
    };
    World::start(rt.alloc(), topology, script)
        .ok()
        .context("out of memory")
}
