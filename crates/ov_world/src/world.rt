//! A world.
ghost use Rattle.std.specs.Prelude.{◌≡◌, [], reverse, Some, IfOk};
ghost use Rattle.ov_session.specs.Standing.{IsRoster};
ghost use Rattle.ov_history.specs.Past.{stopped};
ghost use Rattle.ov_world.specs.Actors.{AllStand};
ghost use Rattle.ov_world.specs.Holds.{Holds};
ghost use Rattle.ov_world.specs.World.{setting_of};

mod admit;
mod follow;

use crate::actor_core::ActorCore;
use crate::delivered::Delivered;
use crate::story::Story;
use ov_base::{Memory, Sequence};
use ov_event::Entry;
use ov_script::Script;
use ov_session::Roster;
use ov_topology::{Actor, Topology};
use std::alloc::Global;
use std::marker::Model;

/// All actors of a topology as they run, what the sessions of a script are to do, and the one history of what the actors did
/// (docs/STORE.md, Histories). Contracts see the topology, the script and the history, the newest entry first.
#[derive(Drop)]
pub struct World {
    topology: Topology,
    script: Script,
    /// The core of each actor, at its number.
    cores: Vec<ActorCore>,
    /// What was done, the oldest entry first.
    entries: Vec<Entry>,
    /// The letter that was taken last, for those who take it next.
    last: Option<Delivered>,
}

impl Model for World {
    ghost use Rattle.std.specs.Prelude.{reverse};
    ghost use Rattle.ov_world.specs.World.{WorldState, Keeps, setting_by};

    ghost Value = { WorldState };

    ghost view = { λ w. record { topology = w.topology; script = w.script; history = reverse w.entries.items } };

    ghost invariant = { λ w. Keeps (setting_by w.topology w.script) (reverse w.entries.items) w.cores.items w.last };
}

impl World {
    /// The world of a topology and a script in which nothing was done. The only error is out of memory.
    pub fn start(alloc: Global, topology: Topology, script: Script) -> Result<World, Memory>
        ensures start { IfOk result (λ world. world ≡ record { topology = topology; script = script; history = [] }) }
        ensures holds { IfOk result (λ world. Holds (setting_of world) world.history) }
    {
        let cores = cores_of(alloc, &topology, script.roster())?;
        let world = World {
            topology,
            script,
            cores,
            entries: Vec::new(alloc),
            last: None,
        };
        world.assure();
        Ok(world)
    }

    /// What was done, the oldest entry first.
    pub fn entries(&self) -> &[Entry]
        ensures entries { result.now ≡ reverse self.now.history }
        ensures holds { Holds (setting_of self.now) self.now.history }
    {
        self.entries.as_slice()
    }

    /// The topology.
    pub fn topology(&self) -> &Topology
        ensures { result.now ≡ self.now.topology }
    {
        &self.topology
    }

    /// The script.
    pub fn script(&self) -> &Script
        ensures { result.now ≡ self.now.script }
    {
        &self.script
    }

    /// Whether an actor has stopped. One that is not in the topology has not. Does not allocate.
    pub fn has_stopped(&self, actor: Actor) -> bool
        ensures { result ≡ stopped actor self.now.history }
    {
        match self.topology.number_of(actor) {
            None => false,
            Some(number) => self.cores[number as usize].has_stopped(),
        }
    }

    /// Hands the topology, the script and the entries over to a story, in place of what it had. Does not allocate.
    pub fn tell(self, story: &mut Story)
        ensures topology { story.new.topology ≡ Some self.topology }
        ensures script { story.new.script ≡ Some self.script }
        ensures entries { story.new.entries ≡ reverse self.history }
        ensures holds { Holds (setting_of self) self.history }
    {
        self.assure();
        story.topology = Some(self.topology);
        story.script = Some(self.script);
        story.entries = Sequence::from_vec(self.entries);
    }

    /// Does nothing: where it is called, what is true of every world is known of this one.
    fn assure(&self)
        ensures { Holds (setting_of self.now) self.now.history }
    {
        let _ = &self.entries;
    }
}

/// The cores of all actors, which have done nothing. Condition: the roster fits. The only error is out of memory.
pub(crate) fn cores_of(
    alloc: Global,
    topology: &Topology,
    roster: &Roster,
) -> Result<Vec<ActorCore>, Memory>
    requires { IsRoster roster.now }
    ensures { IfOk result (λ cores. AllStand (record { topology = topology.now; roster = roster.now }) [] cores.items) }
{
    let mut cores = Vec::with_capacity(alloc, topology.actors() as usize)?;
    for number in 0..topology.actors() {
        if let Some(actor) = topology.actor(number) {
            cores.push(ActorCore::new(alloc, topology, roster, actor)?)?;
        }
    }
    Ok(cores)
}
