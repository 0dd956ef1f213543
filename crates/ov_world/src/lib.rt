//! The world: all actors of a topology, and the one history of what they did.
//!
//! The promise to the layers above: whatever is followed or admitted, the history of a [`World`] is lawful, and so all of `Holds` is
//! true of it: its watermarks are final, what a settler gathers is its window, settled values are those of the serial map, and each
//! reply is the expected one. `follow` gives the history that the definition of the same name gives; `admit` admits exactly what may
//! follow.
//!
//! Start with `specs/World.antt`, what contracts see of a world, and `specs/Holds.antt`, what is true of each; then `src/world.rt`.
#![tactic(auto)]

mod act;
mod actor_core;
mod delivered;
mod judge;
mod line;
mod story;
#[cfg(test)]
mod tests;
mod world;

pub use act::Act;
pub use judge::first_refused;
pub use line::Line;
pub use story::Story;
pub use world::World;
