//! Topologies: which actors there are, where they stand, and who keeps a key.
ghost use Rattle.std.specs.Prelude.{◌≡◌, ◌++◌, ◌<◌, ◌≤◌, ℕ, List, length, get_or, IfOk, IfSome, IsSome, ◌↔◌, Some};
ghost use Rattle.ov_topology.specs.Shape as shapes;
ghost use Rattle.ov_topology.specs.Shape.{Shape, IsShape, byte_sum, marked, place_of, votes_of, gates};
ghost use Rattle.ov_topology.specs.Actor.{IsActor};
ghost use Rattle.ov_topology.specs.Numbers.{actors, nodes, actor_at, node_at, settler_at, number_of};
ghost use Rattle.ov_topology.specs.declared.actor.Actor.TheVariants as actors;
ghost use Rattle.ov_topology.specs.Read.{Gives, topology_of};

use crate::actor::Actor;
use crate::fault::TopologyError;
use crate::read::read_document;
use ov_base::{Key, Memory, Sequence};
use std::alloc::Global;
use std::marker::Model;

/// The data centres, partitions and gateways of a store, and its two quorums: 1 to 5 centres, 1 to 8
/// partitions, 1 to 8 gateways, each in a centre, and `write` and `read` from 1 to the number of centres and
/// together above it (docs/STORE.md, Topology). Contracts see these values.
#[derive(Debug, Drop)]
pub struct Topology {
    centres: u32,
    partitions: u32,
    gateways: Sequence<u32>,
    write: u32,
    read: u32,
}

impl Model for Topology {
    ghost use Rattle.ov_topology.specs.Shape.{Shape, IsShape};

    ghost Value = { Shape };

    ghost view = { λ t. record { centres = t.centres; partitions = t.partitions; gateways = t.gateways; write = t.write; read = t.read } };

    ghost invariant = { λ t. IsShape (record { centres = t.centres; partitions = t.partitions; gateways = t.gateways; write = t.write; read = t.read }) };
}

impl Topology {
    /// The topology of a document (docs/FORMATS.md, Topology), or its first fault in the order of
    /// [`TopologyError`].
    pub fn read(alloc: Global, bytes: &[u8]) -> Result<Topology, TopologyError>
        ensures exact { Gives (λ (t : Shape). t) result (topology_of bytes.now) }
    {
        read_document(alloc, bytes)
    }

    /// The topology of these values. Condition: each is in its range, and the quorums meet.
    pub fn of(
        alloc: Global,
        centres: u32,
        partitions: u32,
        gateways: &[u32],
        write: u32,
        read: u32,
    ) -> Result<Topology, Memory>
        requires { IsShape (record { centres = centres; partitions = partitions; gateways = gateways.now; write = write; read = read }) }
        ensures { IfOk result (λ t. t ≡ record { centres = centres; partitions = partitions; gateways = gateways.now; write = write; read = read }) }
    {
        Ok(Topology {
            centres,
            partitions,
            gateways: copied_numbers(alloc, gateways)?,
            write,
            read,
        })
    }

    /// How many data centres there are, 1 to 5.
    pub fn centres(&self) -> u32
        ensures value { result ≡ self.now.centres }
        ensures form { IsShape self.now }
    {
        self.centres
    }

    /// How many partitions there are, 1 to 8.
    pub fn partitions(&self) -> u32
        ensures value { result ≡ self.now.partitions }
        ensures form { IsShape self.now }
    {
        self.partitions
    }

    /// How many gateways there are, 1 to 8.
    pub fn gateways(&self) -> u32
        ensures value { result ≡ gates self.now }
        ensures form { IsShape self.now }
    {
        self.gateways.len() as u32
    }

    /// How many copies a write has to reach.
    pub fn write(&self) -> u32
        ensures value { result ≡ self.now.write }
        ensures form { IsShape self.now }
    {
        self.write
    }

    /// How many copies a read asks.
    pub fn read_quorum(&self) -> u32
        ensures value { result ≡ self.now.read }
        ensures form { IsShape self.now }
    {
        self.read
    }

    /// The centre of a gateway, below the number of centres.
    pub fn centre_of(&self, gate: u32) -> u32
        requires { gate < gates self.now }
        ensures value { result ≡ get_or self.now.gateways gate 0 }
        ensures there { result < self.now.centres }
    {
        self.gateways.as_slice()[gate as usize]
    }

    /// The votes of the marked centres, one for each, where the marks stand by centre: marked centres make a
    /// write quorum where this is at least [`Topology::write`], and a read quorum where it is at least
    /// [`Topology::read_quorum`].
    pub fn votes_of(&self, marks: &[bool]) -> u32
        requires { length marks.now ≤ self.now.centres }
        ensures { result ≡ votes_of self.now marks.now }
    {
        prove!(marks.len() <= self.centres() as usize);
        count_marked(marks)
    }

    /// The partition that keeps a key: the sum of its bytes modulo the number of partitions.
    pub fn place(&self, key: Key) -> u32
        ensures value { result ≡ place_of self.now key }
        ensures there { result < self.now.partitions }
    {
        sum_of_bytes(key.bytes()) % self.partitions
    }

    /// How many actors there are.
    pub fn actors(&self) -> u32
        ensures { result ≡ actors self.now }
    {
        self.gateways() + self.centres * self.partitions + self.centres
    }

    /// The actor of a number, which has a word. None exactly where the number is not below
    /// [`Topology::actors`].
    pub fn actor(&self, number: u32) -> Option<Actor>
        ensures there { IsSome result ↔ (number < actors self.now) }
        ensures value { result ≡ actor_at self.now number }
        ensures inverse { IfSome result (λ actor. number_of self.now actor ≡ Some number) }
        ensures word { IfSome result IsActor }
    {
        self.actor_in_order(number)
    }

    /// The number of an actor, below [`Topology::actors`]. None exactly where the actor is not in the
    /// topology.
    pub fn number_of(&self, actor: Actor) -> Option<u32>
        ensures value { result ≡ number_of self.now actor }
        ensures inverse { IfSome result (λ number. actor_at self.now number ≡ Some actor) }
        ensures there { IfSome result (λ number. number < actors self.now) }
    {
        self.number_in_order(actor)
    }

    /// A copy, which equals its source.
    pub fn copy(&self) -> Result<Topology, Memory>
        ensures { IfOk result (λ t. t ≡ self.now) }
    {
        Ok(Topology {
            centres: self.centres,
            partitions: self.partitions,
            gateways: copied_sequence(&self.gateways)?,
            write: self.write,
            read: self.read,
        })
    }
}

impl Topology {
    /// The topology of these parts, which takes the gateways as they are. Does not allocate.
    pub(crate) fn from_parts(
        centres: u32,
        partitions: u32,
        gateways: Vec<u32>,
        write: u32,
        read: u32,
    ) -> Topology
        requires { IsShape (record { centres = centres; partitions = partitions; gateways = gateways.items; write = write; read = read }) }
        ensures { result ≡ record { centres = centres; partitions = partitions; gateways = gateways.items; write = write; read = read } }
    {
        Topology {
            centres,
            partitions,
            gateways: Sequence::from_vec(gateways),
            write,
            read,
        }
    }

    fn nodes(&self) -> u32
        ensures value { result ≡ nodes self.now }
        ensures few { result ≤ 40 }
    {
        self.centres * self.partitions
    }

    fn actor_in_order(&self, number: u32) -> Option<Actor>
        ensures value { result ≡ actor_at self.now number }
        ensures form { IsShape self.now }
    {
        let gates = self.gateways();
        if number < gates {
            Some(Actor::Gate(number))
        } else {
            self.node_in_order(number - gates)
        }
    }

    fn node_in_order(&self, number: u32) -> Option<Actor>
        ensures { result ≡ node_at self.now number }
    {
        let nodes = self.nodes();
        if number < nodes {
            Some(Actor::Node {
                centre: number / self.partitions,
                part: number % self.partitions,
            })
        } else {
            self.settler_in_order(number - nodes)
        }
    }

    fn settler_in_order(&self, number: u32) -> Option<Actor>
        ensures { result ≡ settler_at self.now number }
    {
        if number < self.centres {
            Some(Actor::Settler(number))
        } else {
            None
        }
    }

    fn number_in_order(&self, actor: Actor) -> Option<u32>
        ensures { result ≡ number_of self.now actor }
    {
        match actor {
            Actor::Gate(gate) => self.gate_number(gate),
            Actor::Node { centre, part } => self.node_number(centre, part),
            Actor::Settler(centre) => self.settler_number(centre),
        }
    }

    fn gate_number(&self, gate: u32) -> Option<u32>
        ensures { result ≡ number_of self.now (actors.Gate gate) }
    {
        if gate < self.gateways() {
            Some(gate)
        } else {
            None
        }
    }

    fn node_number(&self, centre: u32, part: u32) -> Option<u32>
        ensures { result ≡ number_of self.now (actors.Node centre part) }
    {
        if centre < self.centres && part < self.partitions {
            Some(self.gateways() + centre * self.partitions + part)
        } else {
            None
        }
    }

    fn settler_number(&self, centre: u32) -> Option<u32>
        ensures { result ≡ number_of self.now (actors.Settler centre) }
    {
        if centre < self.centres {
            Some(self.gateways() + self.nodes() + centre)
        } else {
            None
        }
    }
}

fn count_marked(marks: &[bool]) -> u32
    requires { length marks.now ≤ 5 }
    ensures { result ≡ marked marks.now }
{
    let mut votes = 0;
    for mark in marks {
        if *mark {
            votes += 1;
        }
    }
    votes
}

fn sum_of_bytes(bytes: &[u8]) -> u32
    requires { length bytes.now ≤ 32 }
    ensures { result ≡ byte_sum bytes.now }
{
    let mut sum = 0;
    for byte in bytes {
        sum += u32::from(*byte);
    }
    sum
}

fn copied_numbers(alloc: Global, numbers: &[u32]) -> Result<Sequence<u32>, Memory>
    ensures { IfOk result (λ s. s ≡ numbers.now) }
{
    copied_behind(Sequence::new(alloc), numbers)
}

fn copied_sequence(numbers: &Sequence<u32>) -> Result<Sequence<u32>, Memory>
    ensures { IfOk result (λ s. s ≡ numbers.now) }
{
    copied_behind(numbers.empty(), numbers.as_slice())
}

fn copied_behind(front: Sequence<u32>, numbers: &[u32]) -> Result<Sequence<u32>, Memory>
    ensures { IfOk result (λ s. s ≡ front ++ numbers.now) }
{
    let mut copied = front;
    for number in numbers {
        copied.push(*number)?;
    }
    Ok(copied)
}
