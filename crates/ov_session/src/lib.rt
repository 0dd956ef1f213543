//! Client sessions: the rosters of what they are to do, and the order in which their commands may begin.
//!
//! The promise to the layers above: over every list of session events, a [`Sessions`] value says which
//! command of a session may begin, and below which watermark none of its snapshots may be answered.
//!
//! Start with `specs/Events.antt`, which says what a list of events tells of a session, and
//! `specs/Standing.antt`, which says when a command may begin and what a [`Sessions`] value stands for.
#![tactic(auto)]

mod after;
mod name;
mod plan;
mod planned;
mod roster;
mod sessions;
#[cfg(test)]
mod tests;

pub use after::After;
pub use name::SessionName;
pub use plan::SessionPlan;
pub use planned::Planned;
pub use roster::{MOST_COMMANDS, MOST_SESSIONS, Roster};
pub use sessions::{Sessions, Standing};
