//! The made script: a workload of any size, made of a number and of how many commands there are.
//!
//! The promise to the layer above: the topology and the script are those that `specs/Made.antt` lists line by line, no line of them has a
//! fault, and the script has as many commands as were asked for.
//!
//! Start with `specs/Made.antt`; `src/examples.rt` shows it at work, and `src/make.rt` has the parts of the script in their order.
#![tactic(auto)]

mod choices;
mod examples;
mod laws;
mod line;
mod make;
mod middle;
mod names;
#[cfg(test)]
mod tests;
mod waits;

pub use examples::{first_command_of_seven, kinds_of_two_thousand};
pub use laws::made_scripts_are_scripts;
pub use make::make_script;
