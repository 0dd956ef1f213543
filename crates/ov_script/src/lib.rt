//! Scripts and schedules: the two texts of lines, read exactly, refused at the first fault, and printed
//! again.
//!
//! The promise to the layers above: a text is accepted exactly where it is the text of a value, and the
//! first line with a fault is named with its first fault else; what is accepted is printed again byte for
//! byte, and what is printed is read back as the same value. A script's roster and the order of its commands
//! are those that its lines say.
//!
//! Start with `specs/Line.antt`, the lines of a script, `specs/Faults.antt`, their faults, and
//! `specs/Sessions.antt`, which says what the lines mean; `specs/Step.antt` has the lines of a schedule.
//! `specs/Written.antt` says what a script keeps of its lines beside its roster.
#![tactic(auto)]

mod fault;
mod growth;
mod line;
mod order;
mod print;
mod read;
mod schedule;
mod script;
mod step;
#[cfg(test)]
mod tests;
mod written;

pub use fault::{AddError, ScheduleError, ScheduleFault, ScriptError, ScriptFault};
pub use line::ScriptLine;
pub use order::CommandAt;
pub use schedule::Schedule;
pub use script::Script;
pub use step::Step;
