//! Base types of the store: numbers, versions, amounts, values and keys, each with its one spelling, and
//! the list, the copies and the reader of texts of lines that every layer above uses.
//!
//! The promise to the layers above: contracts see a version as its number, an amount as a whole number, a
//! key as its bytes, a [`Sequence`] and a [`Shared`] as a list; `==` is equality of what contracts see; and a reader
//! returns a value exactly where the bytes are the one spelling of it.
//!
//! Start with [`Version`] and `specs/Word.antt`, which says what a reader promises; the lemmas that the
//! crates above cite are exported by `proofs/Lib.antt`.
#![tactic(auto)]

mod amount;
mod groups;
mod key;
mod lines;
mod memory;
mod number;
mod plain;
mod sequence;
mod shared;
mod small;
mod split;
mod value;
mod version;

pub use amount::Amount;
pub use groups::groups_at;
pub use key::{Key, repeats};
pub use lines::{FromLines, LineError, read_lines};
pub use memory::{Memory, push_within};
pub use number::{parse_number, parse_number_within, print_number};
pub use plain::{Plain, copied, same};
pub use sequence::Sequence;
pub use shared::Shared;
pub use small::SmallSet;
pub use split::{parts_at, split_at_byte};
pub use value::Value;
pub use version::{GATE_LIMIT, TIME_LIMIT, Version, print_mark};
