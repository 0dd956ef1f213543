//! Completeness: with enough running actors a calm round replies, and calm rounds reply to all.
//!
//! The promise to the layers above: `all_replied`. Where the world is whole after calm rounds, each command of the script is replied exactly
//! once. And `whole_stays`: calm rounds stop nobody, so a world that is whole before them is whole after them.
//!
//! Start with `specs/Facts.antt`, what is true after which passes, `specs/Once.antt`, and `src/laws.rt`. No actor stands on this crate.
#![tactic(auto)]

mod laws;

pub use laws::{all_replied, few_moves, round_replies, scripts_in_order, whole_stays};
