//! The parts of transactions, and the moves among them.
ghost use Rattle.std.specs.Prelude.{◌≡◌};
ghost use Rattle.ov_base.specs.Lemmas.{exact_tests};
ghost use Rattle.ov_functor.specs.Execution.{covers};

use ov_base::{Amount, Key, Memory, Plain, Value};

/// One part of a transaction (docs/STORE.md, Transactions).
#[derive(Clone, Copy, Debug, PartialEq, Eq)]
pub enum Part {
    /// The key gets this amount.
    Put { key: Key, amount: Amount },
    /// The key becomes absent.
    Del { key: Key },
    /// The amount is added; the sum stops at both ends of the range.
    Add { key: Key, amount: Amount },
    /// The key gets the lesser of its amount and this one.
    Least { key: Key, amount: Amount },
    /// The key gets the greater of its amount and this one.
    Greatest { key: Key, amount: Amount },
    /// The amount, at least 1, goes from one key to the other, where the move holds.
    Move { from: Key, to: Key, amount: Amount },
    /// The reply shows the value of the key just before the transaction.
    Get { key: Key },
}

impl Plain for Part {
    ghost exact = { λ x y h. Prim.grind (exact_tests) };

    fn copy(&self) -> Result<Part, Memory> {
        Ok(*self)
    }
}

/// A move of an amount, at least 1, from one key to another (docs/STORE.md, Moves).
#[derive(Clone, Copy, Debug, PartialEq, Eq)]
pub struct Move {
    /// The key that gives.
    pub from: Key,
    /// The key that gets.
    pub to: Key,
    /// How much.
    pub amount: Amount,
}

impl Move {
    /// Whether it holds between keys of these values: the first has the amount, an absent value counted as 0,
    /// and the second has room for it. Does not allocate.
    #[tactic(auto, unfolding(crate::specs::Execution::covers))]
    pub fn holds(&self, from: Value, to: Value) -> bool
        ensures { result ≡ covers self.now.amount from to }
    {
        from.or_zero().get() >= self.amount.get() && to.or_zero().fits(self.amount)
    }
}

impl Plain for Move {
    ghost exact = { λ x y h. Prim.grind (exact_tests) };

    fn copy(&self) -> Result<Move, Memory> {
        Ok(*self)
    }
}
