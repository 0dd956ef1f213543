//! To whom the letters of an entry are addressed.
ghost use Rattle.std.specs.Prelude.{◌≡◌, ℕ, ◌<◌, map, slice_get};
ghost use Rattle.ov_topology.specs.Shape.{Shape, gates};
ghost use Rattle.ov_event.specs.Letters.{IsOf, last_of, gate_letter, node_letter, settler_letter, writes_of, start_writes, write_of, touched, is_for_some, is_gate, is_other_gate, is_node_of, is_settler, hears, is_asked};

use crate::entry::Entry;
use crate::kind::Kind;
use crate::start::Start;
use crate::writes::touched_at;
use ov_functor::Transaction;
use ov_topology::{Actor, Mode, Topology};

/// Whether the `Write` letter at this index is addressed to the actor.
pub fn is_for_write(topology: &Topology, entry: &Entry, index: u32, actor: Actor) -> bool
    ensures { result ≡ is_for_some topology.now (slice_get (writes_of topology.now entry.now.actor entry.now.kind) index) actor }
{
    match entry.actor {
        Actor::Gate(_) => match &entry.kind {
            Kind::Began { start, .. } => is_for_start(topology, start, index, actor),
            _ => false,
        },
        Actor::Node { .. } => false,
        Actor::Settler(_) => false,
    }
}

fn is_for_start(topology: &Topology, start: &Start, index: u32, actor: Actor) -> bool
    ensures { result ≡ is_for_some topology.now (slice_get (start_writes topology.now start.now) index) actor }
{
    match start {
        Start::Draw { transaction, .. } => is_for_draw(topology, transaction, index, actor),
        Start::Look { .. } => false,
    }
}

fn is_for_draw(topology: &Topology, transaction: &Transaction, index: u32, actor: Actor) -> bool
    ensures { (version : ℕ) → result ≡ is_for_some topology.now (slice_get (map (write_of topology.now version transaction.now) (touched topology.now transaction.now)) index) actor }
{
    match touched_at(topology, transaction.parts(), index) {
        Some(part) => is_node_of(part, actor),
        None => false,
    }
}

/// Whether the letter that is no `Write` is addressed to the actor.
pub fn is_for_last(topology: &Topology, entry: &Entry, actor: Actor) -> bool
    requires { IsOf topology.now entry.now }
    ensures { result ≡ is_for_some topology.now (last_of entry.now.actor entry.now.kind) actor }
{
    match entry.actor {
        Actor::Gate(gate) => is_for_gate(topology, gate, &entry.kind, actor),
        Actor::Node { .. } => is_for_node(&entry.kind, actor),
        Actor::Settler(settler) => is_for_settler(settler, &entry.kind, actor),
    }
}

fn is_for_gate(topology: &Topology, gate: u32, kind: &Kind, actor: Actor) -> bool
    requires { gate < gates topology.now }
    ensures { result ≡ is_for_some topology.now (gate_letter gate kind.now) actor }
{
    match kind {
        Kind::Began { .. } => is_settler(topology.centre_of(gate), actor),
        Kind::Published { .. } => hears(gate, actor),
        Kind::Replied { .. } => is_other_gate(gate, actor),
        _ => false,
    }
}

fn is_for_node(kind: &Kind, actor: Actor) -> bool
    ensures { (t : Shape) (centre part : ℕ) → result ≡ is_for_some t (node_letter centre part kind.now) actor }
{
    match kind {
        Kind::Stored { version, .. } => is_gate(version.gate(), actor),
        Kind::Answered { settler, .. } => is_settler(*settler, actor),
        _ => false,
    }
}

fn is_for_settler(settler: u32, kind: &Kind, actor: Actor) -> bool
    ensures { (t : Shape) → result ≡ is_for_some t (settler_letter settler kind.now) actor }
{
    match kind {
        Kind::Asked { mode, .. } => is_asked(settler, *mode, actor),
        Kind::Resulted { gate, .. } => is_gate(*gate, actor),
        _ => false,
    }
}

fn is_gate(gate: u32, actor: Actor) -> bool
    ensures { result ≡ is_gate gate actor }
{
    match actor {
        Actor::Gate(other) => other == gate,
        Actor::Node { .. } => false,
        Actor::Settler(_) => false,
    }
}

fn is_other_gate(gate: u32, actor: Actor) -> bool
    ensures { result ≡ is_other_gate gate actor }
{
    match actor {
        Actor::Gate(other) => other != gate,
        Actor::Node { .. } => false,
        Actor::Settler(_) => false,
    }
}

fn is_node_of(part: u32, actor: Actor) -> bool
    ensures { result ≡ is_node_of part actor }
{
    match actor {
        Actor::Node { part: other, .. } => other == part,
        Actor::Gate(_) => false,
        Actor::Settler(_) => false,
    }
}

fn is_settler(centre: u32, actor: Actor) -> bool
    ensures { result ≡ is_settler centre actor }
{
    match actor {
        Actor::Settler(other) => other == centre,
        Actor::Gate(_) => false,
        Actor::Node { .. } => false,
    }
}

fn hears(sender: u32, actor: Actor) -> bool
    ensures { result ≡ hears sender actor }
{
    match actor {
        Actor::Gate(gate) => gate != sender,
        Actor::Settler(_) => true,
        Actor::Node { .. } => false,
    }
}

fn is_asked(settler: u32, mode: Mode, actor: Actor) -> bool
    ensures { result ≡ is_asked settler mode actor }
{
    match actor {
        Actor::Node { centre, .. } => match mode {
            Mode::Quorum => true,
            Mode::One => centre == settler,
        },
        Actor::Gate(_) => false,
        Actor::Settler(_) => false,
    }
}
