//! How a command begins.
ghost use Rattle.ov_base.specs.Lemmas.{exact_tests};
ghost use Rattle.ov_functor.specs.Lemmas.Functors.{transaction-cases};

use ov_base::{Key, Memory, Plain, Sequence, Version};
use ov_functor::Transaction;

/// How a command begins: a transaction draws a version, a snapshot has its session's floor.
#[derive(Debug, PartialEq, Eq, Drop)]
pub enum Start {
    /// The transaction, and the version that was drawn for it.
    Draw {
        version: Version,
        transaction: Transaction,
    },
    /// The keys of the snapshot, and the least watermark at which it may be answered.
    Look {
        floor: u64,
        keys: Sequence<Key>,
    },
}

impl Plain for Start {
    ghost exact = { λ x y h. Prim.grind (exact_tests, transaction-cases) };

    fn copy(&self) -> Result<Start, Memory> {
        match self {
            Start::Draw {
                version,
                transaction,
            } => Ok(Start::Draw {
                version: *version,
                transaction: transaction.copy()?,
            }),
            Start::Look { floor, keys } => Ok(Start::Look {
                floor: *floor,
                keys: keys.copy()?,
            }),
        }
    }
}
