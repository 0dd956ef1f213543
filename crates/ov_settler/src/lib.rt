//! Settlers as they run: the rounds of a settler, what it has settled, what it knows of watermarks, and its replies.
//!
//! The promise to the layers above: each call of a [`SettlerCore`] returns the entry that the settler gives, None exactly where no such
//! entry may follow, and the core then stands for the history with that entry (`Steps`); `admits` says of any entry of the settler
//! whether it may follow; and its values are those that the laws of settled values speak of.
//!
//! Start with `specs/Settler.antt`: what a core is, and which histories it stands for.
#![tactic(auto)]

mod laws;
mod settler;
#[cfg(test)]
mod tests;

pub use laws::{settler_knows, settler_stays};
pub use settler::SettlerCore;
