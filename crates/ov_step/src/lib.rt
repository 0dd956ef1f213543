//! What a world does: the lines of a schedule, one after another, and what is outstanding, in calm rounds.
//!
//! The promise to the layers above: after `drive` or `calm` the history of the world is the one that the definition of that name in
//! `ov_follow` gives of the history before it; out of memory, one on the way there.
//!
//! Start with `specs/Followed.antt`, a world after lines, and `src/schedule.rt`. Calm rounds are in `src/calm_rounds.rt`; `src/passes.rt` has
//! their passes in order, `src/outstanding.rt` what is kept beside the world for them.
#![tactic(auto)]

mod acknowledge;
mod answer;
mod ask;
mod begin;
mod calm_rounds;
mod deeds;
mod gather;
mod harvest;
mod hear;
mod lines;
mod outstanding;
mod passes;
mod publications;
mod publish;
mod replied;
mod reply;
mod result;
mod rounds;
mod schedule;
mod settle;
mod store;
mod tell;
mod wants;

pub use calm_rounds::calm;
pub use schedule::drive;
