//! One history, which threads lengthen in turn under a ticket lock.
//!
//! The promise to the layers above: there is one lawful history. What a seat has seen is a beginning of it that
//! never becomes shorter; a seat's own entries in what it has seen are all that the history has of its actor; and
//! [`Chronicle::close`] gives that history. Which lists are lawful is a matter of the [`Saga`].
//!
//! Start with [`Saga`] and `specs/Seats.antt`, which says what a seat is; the rule of the lock is `specs/Rules.antt`.
#![tactic(auto)]

mod book;
mod rule;
mod saga;
#[cfg(test)]
mod tests;

pub use book::{BookSeat, Chronicle, Full, UnclosedBook};
pub use saga::Saga;
