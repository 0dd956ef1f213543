//! The topology of a store: its data centres, partitions and gateways, the two quorums, the actors with
//! their numbers, and the words of actors and places.
//!
//! The promise to the layers above: a topology is read exactly where the bytes are a TOML document of one,
//! and the first fault is named else; every topology value is in its ranges and its quorums meet; and
//! actors and their numbers are inverse to each other.
//!
//! Start with `specs/Shape.antt`, which says what contracts see of a topology, and `specs/Read.antt`, which
//! says which topology a document gives and which fault comes first.
#![tactic(auto)]

mod actor;
mod fault;
mod mode;
mod place;
mod read;
#[cfg(test)]
mod tests;
mod topology;

pub use actor::{
    Actor, parse_gate, parse_node, parse_settler, print_gate, print_node, print_settler,
};
pub use fault::{Name, TopologyError};
pub use mode::Mode;
pub use place::Place;
pub use topology::Topology;
