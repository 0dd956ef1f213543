//! Which actors make which entries.
ghost use Rattle.std.specs.Prelude.{◌≡◌, IsTrue, ◌↔◌};
ghost use Rattle.ov_event.specs.Letters.{IsOf, is_gate_kind, is_node_kind, is_settler_kind, is_of_sort};

use crate::entry::Entry;
use crate::kind::Kind;
use ov_topology::{Actor, Topology};

/// Whether the topology has the entry's actor, and the actor is of the sort that the entry's kind wants (docs/STORE.md,
/// Entries). Does not allocate.
pub fn is_of(topology: &Topology, entry: &Entry) -> bool
    ensures { IsTrue result ↔ IsOf topology.now entry.now }
{
    topology.number_of(entry.actor).is_some() && is_of_sort(entry)
}

fn is_of_sort(entry: &Entry) -> bool
    ensures { result ≡ is_of_sort entry.now.actor entry.now.kind }
{
    match entry.actor {
        Actor::Gate(_) => is_gate_kind(&entry.kind),
        Actor::Node { .. } => is_node_kind(&entry.kind),
        Actor::Settler(_) => is_settler_kind(&entry.kind),
    }
}

fn is_gate_kind(kind: &Kind) -> bool
    ensures { result ≡ is_gate_kind kind.now }
{
    match kind {
        Kind::Began { .. } => true,
        Kind::Acked { .. } => true,
        Kind::Published { .. } => true,
        Kind::Heard { .. } => true,
        Kind::Replied { .. } => true,
        Kind::Told { .. } => true,
        Kind::Stopped => true,
        _ => false,
    }
}

fn is_node_kind(kind: &Kind) -> bool
    ensures { result ≡ is_node_kind kind.now }
{
    match kind {
        Kind::Stored { .. } => true,
        Kind::Answered { .. } => true,
        Kind::Stopped => true,
        _ => false,
    }
}

fn is_settler_kind(kind: &Kind) -> bool
    ensures { result ≡ is_settler_kind kind.now }
{
    match kind {
        Kind::Heard { .. } => true,
        Kind::Asked { .. } => true,
        Kind::Taken { .. } => true,
        Kind::Settled { .. } => true,
        Kind::Resulted { .. } => true,
        Kind::Stopped => true,
        _ => false,
    }
}
