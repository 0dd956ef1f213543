//! The core of a gateway. Its calls stand in the files of `gate/`.
ghost use Rattle.std.specs.Prelude.{◌≡◌, true, [], None, IfOk};
ghost use Rattle.ov_topology.specs.declared.actor.Actor as actors;
ghost use Rattle.ov_topology.specs.declared.actor.Actor.TheVariants.{Gate};
ghost use Rattle.ov_session.specs.Standing.{IsRoster};
ghost use Rattle.ov_event.specs.Letters.{is_in};
ghost use Rattle.ov_history.specs.Past.{History, stops};
ghost use Rattle.ov_history.specs.May.{Setting};
ghost use Rattle.ov_history.specs.Gives.{Stop};
ghost use Rattle.ov_history.specs.Cores.{Steps};
ghost use Rattle.ov_gate.specs.Gate.{IsGate};

mod admits;
mod begin;
mod publish;
mod take;
mod times;

use crate::tracker::Tracker;
use ov_base::{Memory, Version};
use ov_event::{Entry, Kind};
use ov_gossip::Vector;
use ov_session::{Roster, Sessions};
use ov_topology::{Actor, Topology};
use std::alloc::Global;
use std::marker::Model;

/// A gateway as it runs (docs/STORE.md, Gateways): its last time, the marks that it knows, how its sessions stand, the versions that
/// it drew with what they still lack, and whether it has stopped.
#[derive(Drop)]
pub struct GateCore {
    topology: Topology,
    gate: u32,
    last: u64,
    vector: Vector,
    sessions: Sessions,
    latest: Vec<Option<Version>>,
    tracked: Tracker,
    stopped: bool,
}

impl Model for GateCore {
    ghost use Rattle.ov_gate.specs.Gate.{GateState, IsCore};

    ghost Value = { GateState };

    ghost view = { λ g. record { topology = g.topology; gate = g.gate; last = g.last; vector = g.vector; sessions = g.sessions; latest = g.latest.items; tracked = g.tracked; stopped = g.stopped } };

    ghost invariant = { λ g. IsCore g.gate g.last g.vector };
}

impl GateCore {
    /// A gateway that has done nothing. It stands for the empty history. Conditions: the gateway is in the topology, and the roster
    /// fits ([`Roster::fits`]).
    pub fn new(
        alloc: Global,
        topology: &Topology,
        roster: &Roster,
        gate: u32,
    ) -> Result<GateCore, Memory>
        requires roster { IsRoster roster.now }
        requires known { is_in topology.now (Gate gate) ≡ true }
        ensures { IfOk result (λ core. IsGate (record { topology = topology.now; roster = roster.now }) [] (Gate gate) core) }
    {
        Ok(GateCore {
            topology: topology.copy()?,
            gate,
            last: 0,
            vector: Vector::new(topology.gateways()),
            sessions: Sessions::new(alloc, roster, gate)?,
            latest: vec![in alloc; None; roster.sessions.len()]?,
            tracked: Tracker::new(alloc),
            stopped: false,
        })
    }

    /// Whether the gateway has stopped. Does not allocate.
    pub fn has_stopped(&self) -> bool
        ensures { result ≡ self.now.stopped }
    {
        self.stopped
    }

    /// Stops the gateway. None exactly where it has stopped, and then nothing has changed. Takes no memory.
    pub fn stop(&mut self) -> Option<Entry>
        ensures steps { (t : Setting) (h : History) (actor : actors.Actor) → IsGate t h actor self.old → Steps IsGate stops t h actor Stop result self.new }
        ensures none { result ≡ None → self.new ≡ self.old }
    {
        if self.stopped {
            return None;
        }
        self.stopped = true;
        Some(self.entry(Kind::Stopped))
    }

    /// The entry of this gateway that says this.
    fn entry(&self, kind: Kind) -> Entry
        ensures { result ≡ record { actor = Gate self.now.gate; kind = kind } }
    {
        Entry {
            actor: Actor::Gate(self.gate),
            kind,
        }
    }
}
