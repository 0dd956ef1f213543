//! Transactions, the functors that stand for their writes, and the replies that show what they got.
//!
//! The promise to the layers above: a transaction gives each key that it writes one functor, and the
//! functor's value, applied to the previous values of the keys that it reads, is what executing the whole
//! transaction makes of the key.
//!
//! Start with `specs/Execution.antt`, which says what executing a whole transaction does to a map from keys
//! to values, and `specs/Functor.antt`, which says what each functor is. The laws stand in `src/laws.rt`.
#![tactic(auto)]

mod command;
mod effect;
mod error;
mod functor;
mod item;
mod items;
mod kept;
mod laws;
mod part;
mod reply;
mod reply_words;
mod transaction;
mod words;

pub use command::Command;
pub use effect::Effect;
pub use error::TxnError;
pub use functor::{Functor, FunctorError};
pub use item::{Item, Shown, Valued};
pub use items::items_of;
pub use kept::{Kept, Lookup, moves_hold, reply_on};
pub use laws::{functor_agreement, moves_are_exact, serial_fold, window_values};
pub use part::{Move, Part};
pub use reply::Reply;
pub use transaction::Transaction;
pub use words::{parse_parts, parts_in_groups, print_parts};
