//! Commands: what a session asks of the store.
ghost use Rattle.ov_base.specs.Lemmas.{exact_tests};
ghost use Rattle.ov_functor.specs.Lemmas.Functors.{transaction-cases};

use crate::transaction::Transaction;
use ov_base::{Key, Memory, Plain, Sequence};

/// What a session asks of the store (docs/STORE.md, Replies).
#[derive(Debug, PartialEq, Eq, Drop)]
pub enum Command {
    /// To execute the transaction.
    Transact(Transaction),
    /// To show these keys, in this order, at one watermark.
    Snap(Sequence<Key>),
}

impl Plain for Command {
    ghost exact = { λ x y h. Prim.grind (exact_tests, transaction-cases) };

    fn copy(&self) -> Result<Command, Memory> {
        match self {
            Command::Transact(transaction) => Ok(Command::Transact(transaction.copy()?)),
            Command::Snap(keys) => Ok(Command::Snap(keys.copy()?)),
        }
    }
}
