//! All versions that the gateway has drawn.
ghost use Rattle.std.specs.Prelude.{◌≡◌, ◌<◌, ◌≤◌, ◌++◌, [], ◌∷◌, length, map, IfSome, OnOk, OnErr};
ghost use Rattle.ov_gate.specs.Tracked.{with_ack, with_reply};
ghost use Rattle.ov_gate.specs.Tracker.{Rises, first_held, least_held, at_version, earlier, IsPlace};

use crate::tracked::{Mark, Tracked};
use ov_base::{Memory, Version};
use ov_topology::Topology;
use std::alloc::Global;
use std::marker::Model;

/// The versions that the gateway has drawn, in the order in which it drew them, and for each mark the place of the first that holds
/// it down. Contracts see the list.
#[derive(Drop)]
pub struct Tracker {
    items: Vec<Tracked>,
    low: usize,
    full: usize,
    done: usize,
}

impl Model for Tracker {
    ghost use Rattle.std.specs.Prelude.{List};
    ghost use Rattle.ov_gate.specs.declared.tracked.Tracked.{Tracked};
    ghost use Rattle.ov_gate.specs.Tracker.{ArePlaces};

    ghost Value = { List Tracked };

    ghost view = { λ t. t.items.items };

    ghost invariant = { λ t. ArePlaces t.items.items t.low t.full t.done };
}

impl Tracker {
    /// No version. Takes no memory.
    pub fn new(alloc: Global) -> Tracker
        ensures { result ≡ [] }
    {
        Tracker {
            items: Vec::new(alloc),
            low: 0,
            full: 0,
            done: 0,
        }
    }

    /// Adds a version at the end. On an error nothing has changed.
    pub fn add(&mut self, one: Tracked) -> Result<(), Memory>
        ensures ok { OnOk result (self.new ≡ self.old ++ one ∷ []) }
        ensures err { OnErr result (self.new ≡ self.old) }
    {
        self.items.push(one)?;
        self.low = first_held(self.items.as_slice(), Mark::Low, self.low);
        self.full = first_held(self.items.as_slice(), Mark::Full, self.full);
        self.done = first_held(self.items.as_slice(), Mark::Done, self.done);
        Ok(())
    }

    /// Takes the acknowledgement of a version by a node, where the versions rise. Takes no memory, one search, and over all calls one
    /// walk over the versions.
    pub fn take_ack(&mut self, topology: &Topology, version: Version, centre: u32, part: u32)
        ensures { Rises self.old → self.new ≡ map (at_version version (with_ack topology.now centre part)) self.old }
    {
        if let Some(place) = find(self.items.as_slice(), version) {
            self.items[place].take_ack(topology, centre, part);
            self.low = first_held(self.items.as_slice(), Mark::Low, self.low);
            self.full = first_held(self.items.as_slice(), Mark::Full, self.full);
        }
    }

    /// Takes the reply to the command of a version, where the versions rise. Takes no memory, one search, and over all calls one walk
    /// over the versions.
    pub fn take_reply(&mut self, version: Version, session: u32, seq: u32)
        ensures { Rises self.old → self.new ≡ map (at_version version (with_reply session seq)) self.old }
    {
        if let Some(place) = find(self.items.as_slice(), version) {
            self.items[place].take_reply(session, seq);
            self.done = first_held(self.items.as_slice(), Mark::Done, self.done);
        }
    }

    /// The least of a number and of the versions that hold the mark down, where the versions rise. Looks at one version.
    pub fn least(&self, mark: Mark, top: u64) -> u64
        ensures { Rises self.now → result ≡ least_held mark top self.now }
    {
        least_from(self.items.as_slice(), self.first(mark), top)
    }

    /// The place of the first version that holds the mark down.
    fn first(&self, mark: Mark) -> usize
        ensures { result ≡ first_held mark self.now }
    {
        match mark {
            Mark::Low => self.low,
            Mark::Full => self.full,
            Mark::Done => self.done,
        }
    }
}

/// The place of the first version that holds the mark down, where those before `from` do not.
fn first_held(items: &[Tracked], mark: Mark, from: usize) -> usize
    requires { from ≤ first_held mark items.now }
    ensures { result ≡ first_held mark items.now }
{
    for place in from..items.len() {
        if items[place].lacks(mark) {
            return place;
        }
    }
    items.len()
}

/// The least of a number and of the version at a place, where there is one.
fn least_from(items: &[Tracked], place: usize, top: u64) -> u64
    ensures { (mark : Mark) → Rises items.now → place ≡ first_held mark items.now → result ≡ least_held mark top items.now }
{
    if place < items.len() {
        items[place].version.number().min(top)
    } else {
        top
    }
}

/// The place of a version. None where no such version is there. The versions rise.
fn find(items: &[Tracked], version: Version) -> Option<usize>
    ensures within { IfSome result (λ place. place < length items.now) }
    ensures place { Rises items.now → IsPlace version items.now result }
{
    let place = earlier(items, version);
    if place < items.len() && items[place].version.number() == version.number() {
        Some(place)
    } else {
        None
    }
}

/// How many are earlier than a version, where the versions rise.
fn earlier(items: &[Tracked], version: Version) -> usize
    ensures { Rises items.now → result ≡ earlier version items.now }
{
    let mut low = 0;
    let mut high = items.len();
    while low < high {
        let middle = low + (high - low) / 2;
        if items[middle].version.number() < version.number() {
            low = middle + 1;
        } else {
            high = middle;
        }
    }
    low
}
