//! The letters of an entry, and their addressees.
ghost use Rattle.std.specs.Prelude.{◌≡◌, ℕ, ◌≤◌, length, IfOk};
ghost use Rattle.ov_event.specs.Letters.{IsOf, letters_of, letter_in, last_of, gate_letter, node_letter, settler_letter, listed, is_addressed, is_for_some};

use crate::addressees::{is_for_last, is_for_write};
use crate::entry::Entry;
use crate::kind::Kind;
use crate::letter::Letter;
use crate::writes::{write_at, write_count};
use ov_base::{Memory, Plain};
use ov_topology::{Actor, Topology};
use std::alloc::Global;

/// The letter of this number of an entry, from 1 (docs/STORE.md, Letters). None exactly where the entry has no letter of
/// that number; the only error is out of memory.
pub fn letter_of(
    alloc: Global,
    topology: &Topology,
    entry: &Entry,
    number: u32,
) -> Result<Option<Letter>, Memory>
    ensures { IfOk result (λ letter. letter ≡ letter_in topology.now entry.now number) }
{
    if number == 0 {
        return Ok(None);
    }
    let index = number - 1;
    let writes = write_count(topology, entry);
    if index < writes {
        write_at(alloc, topology, entry, index)
    } else if index == writes {
        last_letter(entry)
    } else {
        Ok(None)
    }
}

/// How many letters an entry has, at most 9. Condition, here and below: the entry's actor is in the topology, and of
/// the sort that its kind wants. Does not allocate.
pub fn letter_count(topology: &Topology, entry: &Entry) -> u32
    requires { IsOf topology.now entry.now }
    ensures count { result ≡ length (letters_of topology.now entry.now) }
    ensures few { result ≤ 9 }
{
    write_count(topology, entry) + last_count(entry)
}

/// Whether the letter of this number is addressed to the actor. Does not allocate.
pub fn addressed(topology: &Topology, entry: &Entry, number: u32, actor: Actor) -> bool
    requires { IsOf topology.now entry.now }
    ensures { result ≡ is_addressed topology.now entry.now number actor }
{
    topology.number_of(actor).is_some() && is_for_number(topology, entry, number, actor)
}

fn is_for_number(topology: &Topology, entry: &Entry, number: u32, actor: Actor) -> bool
    requires { IsOf topology.now entry.now }
    ensures { result ≡ is_for_some topology.now (letter_in topology.now entry.now number) actor }
{
    if number == 0 {
        return false;
    }
    let index = number - 1;
    let writes = write_count(topology, entry);
    if index < writes {
        is_for_write(topology, entry, index, actor)
    } else if index == writes {
        is_for_last(topology, entry, actor)
    } else {
        false
    }
}

/// The letter of an entry that is no `Write`.
fn last_letter(entry: &Entry) -> Result<Option<Letter>, Memory>
    ensures { IfOk result (λ letter. letter ≡ last_of entry.now.actor entry.now.kind) }
{
    match entry.actor {
        Actor::Gate(gate) => letter_of_gate(gate, &entry.kind),
        Actor::Node { centre, part } => letter_of_node(centre, part, &entry.kind),
        Actor::Settler(settler) => letter_of_settler(settler, &entry.kind),
    }
}

fn letter_of_gate(gate: u32, kind: &Kind) -> Result<Option<Letter>, Memory>
    ensures { IfOk result (λ letter. letter ≡ gate_letter gate kind.now) }
{
    match kind {
        Kind::Began {
            session,
            seq,
            start,
        } => Ok(Some(Letter::Want {
            session: *session,
            seq: *seq,
            gate,
            start: start.copy()?,
        })),
        Kind::Published { vector, .. } => Ok(Some(Letter::Gossip {
            gate,
            vector: *vector,
        })),
        Kind::Replied { session, seq, .. } => Ok(Some(Letter::Told {
            session: *session,
            seq: *seq,
            gate,
        })),
        _ => Ok(None),
    }
}

fn letter_of_node(centre: u32, part: u32, kind: &Kind) -> Result<Option<Letter>, Memory>
    ensures { IfOk result (λ letter. letter ≡ node_letter centre part kind.now) }
{
    match kind {
        Kind::Stored { version, .. } => Ok(Some(Letter::Ack {
            version: *version,
            centre,
            part,
        })),
        Kind::Answered {
            settler,
            round,
            items,
            ..
        } => Ok(Some(Letter::Answer {
            settler: *settler,
            round: *round,
            centre,
            part,
            items: items.copy()?,
        })),
        _ => Ok(None),
    }
}

fn letter_of_settler(settler: u32, kind: &Kind) -> Result<Option<Letter>, Memory>
    ensures { IfOk result (λ letter. letter ≡ settler_letter settler kind.now) }
{
    match kind {
        Kind::Asked {
            round,
            mode,
            from,
            below,
        } => Ok(Some(Letter::Ask {
            settler,
            round: *round,
            mode: *mode,
            from: *from,
            below: *below,
        })),
        Kind::Resulted {
            session,
            seq,
            gate,
            reply,
            ..
        } => Ok(Some(Letter::Result {
            session: *session,
            seq: *seq,
            gate: *gate,
            reply: reply.copy()?,
        })),
        _ => Ok(None),
    }
}

/// How many letters an entry has that are no `Write`, 0 or 1.
fn last_count(entry: &Entry) -> u32
    ensures count { result ≡ length (listed (last_of entry.now.actor entry.now.kind)) }
    ensures few { result ≤ 1 }
{
    match entry.actor {
        Actor::Gate(_) => count_of_gate(&entry.kind),
        Actor::Node { .. } => count_of_node(&entry.kind),
        Actor::Settler(_) => count_of_settler(&entry.kind),
    }
}

fn count_of_gate(kind: &Kind) -> u32
    ensures count { (gate : ℕ) → result ≡ length (listed (gate_letter gate kind.now)) }
    ensures few { result ≤ 1 }
{
    match kind {
        Kind::Began { .. } => 1,
        Kind::Published { .. } => 1,
        Kind::Replied { .. } => 1,
        _ => 0,
    }
}

fn count_of_node(kind: &Kind) -> u32
    ensures count { (centre part : ℕ) → result ≡ length (listed (node_letter centre part kind.now)) }
    ensures few { result ≤ 1 }
{
    match kind {
        Kind::Stored { .. } => 1,
        Kind::Answered { .. } => 1,
        _ => 0,
    }
}

fn count_of_settler(kind: &Kind) -> u32
    ensures count { (settler : ℕ) → result ≡ length (listed (settler_letter settler kind.now)) }
    ensures few { result ≤ 1 }
{
    match kind {
        Kind::Asked { .. } => 1,
        Kind::Resulted { .. } => 1,
        _ => 0,
    }
}
