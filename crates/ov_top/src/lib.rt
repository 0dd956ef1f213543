//! The top calls: everything that the program does, over the words of its command line and the shelf and
//! the sink that it is handed.
//!
//! The promise to `main`: [`stepped_top`] reads the files in the order of work, follows the schedule over a
//! world of the topology and the script, calms the world and writes the report, or ends with the named status
//! of the first cause that applies; or it judges a journal, or runs a made script and writes its summary. Its clauses carry the headline of the store: every reply is what executing
//! all begun transactions one at a time in the order of their versions gives.
//!
//! Start with `specs/Headline.antt`, the headline in the store's own words, and `specs/Ending.antt`, the order
//! of work as one function of the words and the files' bytes; then `src/step.rt`.
#![tactic(auto)]

mod file;
mod make;
mod names;
mod perform;
mod prepare;
mod refusal;
mod run;
mod step;
mod words;
mod write;

pub use ov_make::make_script;
pub use ov_world::Story;
pub use step::stepped_top;
pub use words::{FileName, Order, command_of};

#[cfg(test)]
mod tests;
