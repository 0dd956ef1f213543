//! Actors: the gateways, nodes and settlers of a store.
ghost use Rattle.std.specs.Prelude.{◌≡◌, ◌≤◌};
ghost use Rattle.ov_base.specs.Lemmas.{exact_tests};
ghost use Rattle.ov_base.specs.Word.{Reads, Printed};
ghost use Rattle.ov_topology.specs.Actor as spec;
ghost use Rattle.ov_topology.specs.Actor.{IsActor, IsGate, IsNode, IsSettler, actor_text, gate_text, node_text, settler_text, actor_of, gate_of, node_of, settler_of, digit_of};

use ov_base::{Memory, Plain, print_number};

/// An actor of the store (docs/STORE.md, Topology). Actors are ordered: gateways upwards, then nodes by
/// centre and then partition, then settlers upwards.
#[derive(Clone, Copy, Debug, PartialEq, Eq)]
pub enum Actor {
    /// The gateway of this number.
    Gate(u32),
    /// The node that keeps its centre's copy of the partition.
    Node { centre: u32, part: u32 },
    /// The settler of this centre.
    Settler(u32),
}

impl Actor {
    /// The actor that the bytes spell: `g0` to `g7`, `n0.0` to `n4.7` or `e0` to `e4`. None exactly where
    /// they spell none. Does not allocate.
    pub fn parse(text: &[u8]) -> Option<Actor>
        ensures exact { result ≡ actor_of text.now }
        ensures reads { Reads actor_text IsActor text.now result }
    {
        actor_read(text)
    }

    /// Writes the one spelling at the end. On an error a prefix of it was written.
    pub fn print_to(&self, text: &mut Vec<u8>) -> Result<(), Memory>
        requires { IsActor self.now }
        ensures { Printed result text.old.items text.new.items (actor_text self.now) }
    {
        match self {
            Actor::Gate(gate) => print_gate(*gate, text),
            Actor::Node { centre, part } => print_node(*centre, *part, text),
            Actor::Settler(centre) => print_settler(*centre, text),
        }
    }
}

/// The number of the gateway that the bytes spell, `g0` to `g7`. None exactly where they spell none. Does
/// not allocate.
pub fn parse_gate(text: &[u8]) -> Option<u32>
    ensures exact { result ≡ gate_of text.now }
    ensures reads { Reads gate_text IsGate text.now result }
{
    gate_read(text)
}

/// The centre of the settler that the bytes spell, `e0` to `e4`. None exactly where they spell none. Does
/// not allocate.
pub fn parse_settler(text: &[u8]) -> Option<u32>
    ensures exact { result ≡ settler_of text.now }
    ensures reads { Reads settler_text IsSettler text.now result }
{
    settler_read(text)
}

/// The centre and the partition of the node that the bytes spell, `n0.0` to `n4.7`. None exactly where they
/// spell none. Takes no memory.
pub fn parse_node(text: &[u8]) -> Option<(u32, u32)>
    ensures exact { result ≡ spec.node_at text.now }
    ensures reads { Reads (λ at. node_text at.0 at.1) (λ at. IsNode at.0 at.1) text.now result }
{
    node_at(text)
}

/// Writes the one spelling of a gateway, `g0` to `g7`, at the end. On an error a prefix of it was written.
pub fn print_gate(gate: u32, text: &mut Vec<u8>) -> Result<(), Memory>
    requires { IsGate gate }
    ensures { Printed result text.old.items text.new.items (gate_text gate) }
{
    text.push(b'g')?;
    print_number(u64::from(gate), text)
}

/// Writes the one spelling of a settler, `e0` to `e4`, at the end. On an error a prefix of it was written.
pub fn print_settler(centre: u32, text: &mut Vec<u8>) -> Result<(), Memory>
    requires { IsSettler centre }
    ensures { Printed result text.old.items text.new.items (settler_text centre) }
{
    text.push(b'e')?;
    print_number(u64::from(centre), text)
}

/// Writes the one spelling of a node, `n0.0` to `n4.7`, at the end. On an error a prefix of it was written.
pub fn print_node(centre: u32, part: u32, text: &mut Vec<u8>) -> Result<(), Memory>
    requires { IsNode centre part }
    ensures { Printed result text.old.items text.new.items (node_text centre part) }
{
    text.push(b'n')?;
    print_number(u64::from(centre), text)?;
    text.push(b'.')?;
    print_number(u64::from(part), text)
}

#[tactic(auto, unfolding(crate::specs::Actor::actor_of))]
fn actor_read(text: &[u8]) -> Option<Actor>
    ensures { result ≡ actor_of text.now }
{
    if let Some(gate) = gate_read(text) {
        return Some(Actor::Gate(gate));
    }
    if let Some(centre) = settler_read(text) {
        return Some(Actor::Settler(centre));
    }
    node_read(text)
}

#[tactic(auto, unfolding(crate::specs::Actor::gate_of))]
fn gate_read(text: &[u8]) -> Option<u32>
    ensures { result ≡ gate_of text.now }
{
    match text {
        [letter, digit] if *letter == b'g' => digit_below(8, *digit),
        _ => None,
    }
}

#[tactic(auto, unfolding(crate::specs::Actor::settler_of))]
fn settler_read(text: &[u8]) -> Option<u32>
    ensures { result ≡ settler_of text.now }
{
    match text {
        [letter, digit] if *letter == b'e' => digit_below(5, *digit),
        _ => None,
    }
}

fn node_read(text: &[u8]) -> Option<Actor>
    ensures { result ≡ node_of text.now }
{
    let (centre, part) = node_at(text)?;
    Some(Actor::Node { centre, part })
}

#[tactic(auto, unfolding(crate::specs::Actor::node_at))]
fn node_at(text: &[u8]) -> Option<(u32, u32)>
    ensures { result ≡ spec.node_at text.now }
{
    match text {
        [letter, centre, dot, part] if *letter == b'n' && *dot == b'.' => {
            let centre = digit_below(5, *centre)?;
            let part = digit_below(8, *part)?;
            Some((centre, part))
        }
        _ => None,
    }
}

fn digit_below(limit: u8, byte: u8) -> Option<u32>
    requires { limit ≤ 10 }
    ensures { result ≡ digit_of limit byte }
{
    if b'0' <= byte && byte < b'0' + limit {
        Some(u32::from(byte - b'0'))
    } else {
        None
    }
}

impl Plain for Actor {
    ghost exact = { λ x y h. Prim.grind (exact_tests) };

    fn copy(&self) -> Result<Actor, Memory> {
        Ok(*self)
    }
}
