//! Nodes: the running state of a storage node, which holds items and answers the rounds of settlers.
//!
//! The promise to the layer above: over every history that a core stands for, each call returns the entry that the node gives
//! there, and the core then stands for the longer history.
//!
//! Start with `specs/Node.antt`: what contracts see of a core, and which histories it stands for.
#![tactic(auto)]

mod held;
mod laws;
mod node;
#[cfg(test)]
mod tests;

pub use laws::node_stays;
pub use node::NodeCore;
