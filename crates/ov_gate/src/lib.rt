//! Gateways: the running state of a gateway, which begins commands, takes acknowledgements and replies, and publishes its marks.
//!
//! The promise to the layer above: over every history that a core stands for, each call answers with the entry that the gateway
//! gives there, and the core then stands for the longer history.
//!
//! Start with `specs/Gate.antt`: what contracts see of a core, and which histories it stands for; then `src/gate/begin.rt`.
#![tactic(auto)]

mod gate;
mod laws;
#[cfg(test)]
mod tests;
mod tracked;
mod tracker;

pub use gate::GateCore;
pub use laws::{gate_stays, none_at_any_clock};
