//! The words of histories: entries, each one step of one actor, and the letters that they make.
//!
//! The promise to the layers above: the letters of an entry, their numbers and their addressees are those of one table,
//! `specs/Letters.antt`; `==` is equality and copies are equal.
//!
//! Start with [`Kind`], the 13 kinds of entries, and `specs/Letters.antt`.
#![tactic(auto)]

mod addressees;
mod entry;
mod item_text;
mod kind;
mod letter;
mod letters;
mod sort;
mod start;
#[cfg(test)]
mod tests;
mod writes;

pub use entry::Entry;
pub use item_text::{has_text, items_in_groups, parse_items, print_items};
pub use kind::Kind;
pub use letter::Letter;
pub use letters::{addressed, letter_count, letter_of};
pub use ov_functor::Valued;
pub use sort::is_of;
pub use start::Start;
pub use writes::{touched_parts, touches, write_count};
