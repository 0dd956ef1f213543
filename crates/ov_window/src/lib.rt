//! Windows: what a settler gathers in a round, the plan of it, and the one value of each place of the plan.
//!
//! The promise to the layers above: the plan of a harvest has the union of its answers by version and then key, each item with the
//! places of its inputs, and its evaluation gives exactly the values that the items have over the older ones (`plan_values`);
//! the value of each place is that of its functor on the values of its inputs' places (`place_values`), whoever computes it.
//!
//! Start with `specs/Plan.antt` and `specs/Evaluation.antt`; `specs/Harvest.antt` says when the answers are enough.
#![tactic(auto)]

mod distinct;
mod evaluate;
mod harvest;
mod laws;
mod plan;
mod round;
#[cfg(test)]
mod tests;
mod union;

pub use evaluate::eval_all;
pub use harvest::Harvest;
pub use laws::{place_values, plan_values};
pub use plan::{Input, Plan, Task};
pub use round::Round;
