//! The core of a settler. Its calls stand in the files of `settler/`.
ghost use Rattle.std.specs.Prelude.{◌≡◌, true, [], None, IfOk};
ghost use Rattle.std.specs.Option.{option_map};
ghost use Rattle.ov_gossip.specs.Marks.{least, low_of, full_of};
ghost use Rattle.ov_topology.specs.declared.actor.Actor as actors;
ghost use Rattle.ov_topology.specs.declared.actor.Actor.TheVariants.{Settler};
ghost use Rattle.ov_event.specs.Letters.{is_in};
ghost use Rattle.ov_history.specs.Past.{History, stops};
ghost use Rattle.ov_history.specs.May.{Setting};
ghost use Rattle.ov_history.specs.Gives.{Stop};
ghost use Rattle.ov_history.specs.Cores.{Steps};
ghost use Rattle.ov_window.specs.Plan.{map_below, plan_over};
ghost use Rattle.ov_settler.specs.Settler.{IsSettler};

mod admits;
mod ask;
mod hear;
mod reply;
mod settle;
mod take;

use ov_base::{Key, Memory, Value};
use ov_event::{Entry, Kind};
use ov_functor::Lookup;
use ov_gossip::Vector;
use ov_lists::VersionLists;
use ov_topology::{Actor, Topology};
use ov_window::{Harvest, Plan};
use std::alloc::Global;
use std::marker::Model;

/// A settler as it runs (docs/STORE.md, Rounds): the marks that it knows, its rounds, how far it has settled, the harvest of its open
/// round, its values, and whether it has stopped.
#[derive(Drop)]
pub struct SettlerCore {
    alloc: Global,
    topology: Topology,
    centre: u32,
    vector: Vector,
    rounds: u64,
    settled: u64,
    harvest: Option<Harvest>,
    values: VersionLists<Value>,
    stopped: bool,
}

impl Model for SettlerCore {
    ghost use Rattle.ov_settler.specs.Settler.{IsCore, SettlerState};

    ghost Value = { SettlerState };

    ghost view = { λ s. record { topology = s.topology; centre = s.centre; vector = s.vector; rounds = s.rounds; settled = s.settled; harvest = s.harvest; values = s.values.entries; stopped = s.stopped } };

    ghost invariant = { λ s. IsCore s.topology s.harvest };
}

impl SettlerCore {
    /// A settler that has done nothing. It stands for the empty history. Condition: the settler is in the topology.
    pub fn new(alloc: Global, topology: &Topology, centre: u32) -> Result<SettlerCore, Memory>
        requires { is_in topology.now (Settler centre) ≡ true }
        ensures { IfOk result (λ core. (t : Setting) → t.topology ≡ topology.now → IsSettler t [] (Settler centre) core) }
    {
        Ok(SettlerCore {
            alloc,
            topology: topology.copy()?,
            centre,
            vector: Vector::new(topology.gateways()),
            rounds: 0,
            settled: 0,
            harvest: None,
            values: VersionLists::new(alloc),
            stopped: false,
        })
    }

    /// The harvest of the open round. None exactly where no round is open. Does not allocate.
    pub fn harvest(&self) -> Option<&Harvest>
        ensures { option_map (λ one. one.now) result ≡ self.now.harvest }
    {
        self.harvest.as_ref()
    }

    /// The plan of a harvest over the core's values. The only error is out of memory.
    pub fn plan(&self, alloc: Global, harvest: &Harvest) -> Result<Plan, Memory>
        ensures { IfOk result (λ plan. plan ≡ plan_over self.now.values harvest.now) }
    {
        Plan::build(alloc, harvest, &self.values)
    }

    /// Whether the settler has stopped. Does not allocate.
    pub fn has_stopped(&self) -> bool
        ensures { result ≡ self.now.stopped }
    {
        self.stopped
    }

    /// Stops the settler. None exactly where it has stopped, and then nothing has changed. Does not allocate.
    pub fn stop(&mut self) -> Option<Entry>
        ensures steps { (t : Setting) (h : History) (actor : actors.Actor) → IsSettler t h actor self.old → Steps IsSettler stops t h actor Stop result self.new }
        ensures none { result ≡ None → self.new ≡ self.old }
    {
        if self.stopped {
            return None;
        }
        self.stopped = true;
        Some(self.entry(Kind::Stopped))
    }

    /// The value of the key just below a number: of what is settled, that of its greatest version below it, else absent. One search;
    /// does not allocate.
    pub fn value_at(&self, key: Key, below: u64) -> Value
        ensures { result ≡ map_below below self.now.values key }
    {
        self.values_below(below).value_of(&key)
    }

    /// How far it has settled: the number below which all is settled.
    pub fn settled(&self) -> u64
        ensures { result ≡ self.now.settled }
    {
        self.settled
    }

    /// Its visibility watermark.
    pub fn visible(&self) -> u64
        ensures { result ≡ least low_of self.now.vector }
    {
        self.vector.visible()
    }

    /// Its replica watermark.
    pub fn replicated(&self) -> u64
        ensures { result ≡ least full_of self.now.vector }
    {
        self.vector.replicated()
    }

    /// The entry of this settler that says this.
    fn entry(&self, kind: Kind) -> Entry
        ensures { result ≡ record { actor = Settler self.now.centre; kind = kind } }
    {
        Entry {
            actor: Actor::Settler(self.centre),
            kind,
        }
    }
}
