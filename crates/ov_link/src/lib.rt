//! Links: how a settler asks nodes for what they hold of a window, where each call may fail.
//!
//! The promise to the layers above: over every link [`harvest`] gives a whole harvest of items that the link's nodes hold in the
//! round's window, or names the first partition that gave too few answers, and then so many of its nodes have failed as must have.
//! Over the nodes of a lawful history that harvest is the window that the round asks for (`nodes_give_window`).
//!
//! Start with the trait [`Link`] and `specs/Links.antt`; `specs/Calls.antt` says who is asked and in which order. [`SureLink`] never
//! fails, [`MemoryLink`] fails at chosen calls.
#![tactic(auto)]

mod gather;
mod laws;
mod link;
mod memory;
mod nodes;
mod sure;
#[cfg(test)]
mod tests;

pub use gather::{HarvestError, harvest};
pub use laws::nodes_give_window;
pub use link::{Call, Link, LinkError};
pub use memory::MemoryLink;
pub use nodes::Held;
pub use sure::SureLink;
