//! Histories: what an actor is after its own entries, when an entry may follow, when a history is lawful, and what an actor gives for
//! an act; with the few laws that every running actor stands on. The other laws are in the crate `ov_laws`.
//!
//! The promise to the layers above: what an actor gives for an act is exactly what may follow for it (`given_may_follow` and
//! `may_is_given`), and what may follow still may after entries of other actors (`guard_stays`).
//!
//! Start with `specs/Past.antt`, the shape of histories, and `specs/May.antt`, which says when an entry may follow; then
//! `specs/Gives.antt`, and `specs/Cores.antt` for what a call of an actor says.
#![tactic(auto)]

mod laws;

pub use laws::{given_may_follow, guard_stays, guard_stays_after, may_is_given, past_is_lawful};
