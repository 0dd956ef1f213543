//! Reports: what became of each command of a script, in a line each. And summaries: what became of a script, in five numbers.
//!
//! The promise to the layers above: `report_to` puts exactly the text of `specs/Report.antt`, and `summary_to` that of `specs/Summary.antt`, a line
//! at a time; a report of a story says which commands were not replied.
//!
//! Start with `specs/Report.antt`, then `src/report.rt`.
#![tactic(auto)]

mod laws;
mod print;
mod replies;
mod report;
mod summary;

pub use laws::replies_are_there;
pub use report::{Report, report_to};
pub use summary::{Summary, summary_to};

#[cfg(test)]
mod tests;
