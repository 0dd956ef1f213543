//! Rounds of settlers.
use ov_topology::Mode;

/// A round of a settler: whom it asks, and for which window (docs/STORE.md, Rounds).
#[derive(Clone, Copy, Debug)]
pub struct Round {
    /// Whom it asks.
    pub mode: Mode,
    /// The settler, by its centre.
    pub settler: u32,
    /// The number from which the window goes: how far the settler has settled.
    pub from: u64,
    /// The number below which the window ends.
    pub below: u64,
}
