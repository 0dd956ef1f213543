//! The core of an actor of any sort.
ghost use Rattle.std.specs.Prelude.{◌≡◌, ◌↔◌, [], true, None, IfOk, IsTrue, OnErr};
ghost use Rattle.std.specs.Option.{option_map};
ghost use Rattle.ov_topology.specs.declared.actor.Actor as actors;
ghost use Rattle.ov_session.specs.Standing.{IsRoster};
ghost use Rattle.ov_event.specs.Letters.{is_in};
ghost use Rattle.ov_history.specs.Past.{History, stopped};
ghost use Rattle.ov_history.specs.May.{Setting, May, Lawful};
ghost use Rattle.ov_history.specs.Gives as gives;
ghost use Rattle.ov_history.specs.Cores.{letter_for};
ghost use Rattle.ov_world.specs.Acts.{act_in};
ghost use Rattle.ov_world.specs.Actors.{Stands, Does};

mod gate;
mod node;
mod settler;

use crate::act::Act;
use ov_base::Memory;
use ov_event::{Entry, Letter};
use ov_gate::GateCore;
use ov_node::NodeCore;
use ov_session::Roster;
use ov_settler::SettlerCore;
use ov_topology::{Actor, Topology};
use std::alloc::Global;

/// The running state of an actor.
#[derive(Drop)]
pub enum ActorCore {
    Gate(GateCore),
    Node(NodeCore),
    Settler(SettlerCore),
}

impl ActorCore {
    /// The core of an actor that has done nothing. Conditions: the actor is in the topology, and the roster fits. The only error is out of
    /// memory.
    pub(crate) fn new(
        alloc: Global,
        topology: &Topology,
        roster: &Roster,
        actor: Actor,
    ) -> Result<ActorCore, Memory>
        requires roster { IsRoster roster.now }
        requires known { is_in topology.now actor ≡ true }
        ensures { IfOk result (λ core. Stands (record { topology = topology.now; roster = roster.now }) [] actor core) }
    {
        match actor {
            Actor::Gate(gate) => Ok(ActorCore::Gate(GateCore::new(alloc, topology, roster, gate)?)),
            Actor::Node { centre, part } => {
                prove!(part < topology.partitions());
                Ok(ActorCore::Node(NodeCore::new(alloc, centre, part)))
            }
            Actor::Settler(centre) => {
                Ok(ActorCore::Settler(SettlerCore::new(alloc, topology, centre)?))
            }
        }
    }

    /// Does what it is asked to do, with its entry. None exactly where the actor gives none. After None, and on an error, nothing has
    /// changed. The letter is the one that it is asked to take, None where it is asked for something else or the history has no such
    /// letter. Conditions: the roster is the one that was handed to `new`, and it fits.
    pub(crate) fn act(
        &mut self,
        alloc: Global,
        roster: &Roster,
        act: Act,
        letter: Option<&Letter>,
    ) -> Result<Option<Entry>, Memory>
        requires { IsRoster roster.now }
        ensures does { IfOk result (λ answer. (t : Setting) (h : History) (actor : actors.Actor) → t.roster ≡ roster.now → Lawful t h → Stands t h actor self.old → option_map (λ one. one.now) letter.entry ≡ letter_for t.topology h (act_in act) → Does Stands t h actor (act_in act) answer self.new) }
        ensures none { IfOk result (λ answer. answer ≡ None → self.new ≡ self.old) }
        ensures err { OnErr result (self.new ≡ self.old) }
    {
        match self {
            ActorCore::Gate(core) => gate::act(core, roster, act, letter),
            ActorCore::Node(core) => node::act(core, act, letter),
            ActorCore::Settler(core) => settler::act(core, alloc, act, letter),
        }
    }

    /// Whether its actor has stopped. Does not allocate.
    pub(crate) fn has_stopped(&self) -> bool
        ensures { (t : Setting) (h : History) (actor : actors.Actor) → Stands t h actor self.now → result ≡ stopped actor h }
    {
        match self {
            ActorCore::Gate(core) => core.has_stopped(),
            ActorCore::Node(core) => core.has_stopped(),
            ActorCore::Settler(core) => core.has_stopped(),
        }
    }

    /// Whether an entry of its actor may follow: exactly then it is true. The letter is the history's letter at the entry's place, None
    /// where there is no such letter. Conditions: the roster is the one that was handed to `new`, and it fits. The only error is out of
    /// memory.
    pub(crate) fn admits(
        &self,
        roster: &Roster,
        letter: Option<&Letter>,
        entry: &Entry,
    ) -> Result<bool, Memory>
        requires { IsRoster roster.now }
        ensures { IfOk result (λ admits. (t : Setting) (h : History) (actor : actors.Actor) → t.roster ≡ roster.now → Stands t h actor self.now → entry.now.actor ≡ actor → option_map (λ one. one.now) letter.entry ≡ letter_for t.topology h (gives.act_of entry.now.kind) → IsTrue admits ↔ May t h entry.now) }
    {
        match self {
            ActorCore::Gate(core) => Ok(core.admits(roster, letter, entry)),
            ActorCore::Node(core) => core.admits(letter, entry),
            ActorCore::Settler(core) => core.admits(letter, entry),
        }
    }
}
