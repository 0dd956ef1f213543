//! Version lists: a finite map from keys and versions to items, from which the newest version below a number, the window
//! between two numbers and the next key are asked, and which lets go of what is below a number.
//!
//! The promise to the layers above: contracts see the entries in the order of key and then version, all of them after each
//! call, and how much room is reserved. Inside the items stand in the order of their insertion, and their places in blocks of at
//! most 32, so that an insertion moves at most one block and the numbers of the blocks behind it.
//!
//! Start with `specs/Entries.antt`; the lemmas on its definitions, for the crates above, are exported by `proofs/Lib.antt`
//! (`Entries` on insertion and the newest, `Sorting` on windows, `Laws` on what stays and the next key). The blocks are in
//! `specs/Parts.antt` and `src/blocks.rt`, and `src/lists.rt` stands on both.
#![tactic(auto)]

mod block;
mod blocks;
mod filing;
mod keys;
mod lists;
mod refill;
mod search;
#[cfg(test)]
mod tests;
mod thin;
mod versioned;
mod window;
mod within;

pub use lists::VersionLists;
