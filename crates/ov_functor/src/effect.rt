//! What a transaction does to one key.
ghost use Rattle.ov_base.specs.Lemmas.{exact_tests};
ghost use Rattle.std.specs.Prelude.{◌≡◌};
ghost use Rattle.ov_functor.specs.Execution.{changed, least_value, greatest_value};

use ov_base::{Amount, Memory, Plain, Value};

/// What becomes of the previous value of a key (docs/STORE.md, Functors).
#[derive(Clone, Copy, Debug, PartialEq, Eq)]
pub enum Effect {
    /// The key has this amount, whatever it had.
    Put(Amount),
    /// The key is absent.
    Del,
    /// The amount is added.
    Add(Amount),
    /// The lesser of the two.
    Least(Amount),
    /// The greater of the two.
    Greatest(Amount),
    /// The amount goes away, by a move.
    Out(Amount),
    /// The amount comes in, by a move.
    In(Amount),
}

impl Effect {
    /// What it makes of the previous value of its key.
    #[tactic(auto, unfolding(crate::specs::Execution::changed))]
    pub(crate) fn change(&self, previous: Value) -> Value
        ensures { result ≡ changed self.now previous }
    {
        match self {
            Effect::Put(amount) => Value::Number(*amount),
            Effect::Del => Value::Absent,
            Effect::Add(amount) => Value::Number(previous.or_zero().sum(*amount)),
            Effect::Least(amount) => Value::Number(least_with(previous, *amount)),
            Effect::Greatest(amount) => Value::Number(greatest_with(previous, *amount)),
            Effect::Out(amount) => Value::Number(previous.or_zero().difference(*amount)),
            Effect::In(amount) => Value::Number(previous.or_zero().sum(*amount)),
        }
    }
}

fn least_with(previous: Value, amount: Amount) -> Amount
    ensures { result ≡ least_value previous amount }
{
    match previous {
        Value::Absent => amount,
        Value::Number(old) => old.least(amount),
    }
}

fn greatest_with(previous: Value, amount: Amount) -> Amount
    ensures { result ≡ greatest_value previous amount }
{
    match previous {
        Value::Absent => amount,
        Value::Number(old) => old.greatest(amount),
    }
}

impl Plain for Effect {
    ghost exact = { λ x y h. Prim.grind (exact_tests) };

    fn copy(&self) -> Result<Effect, Memory> {
        Ok(*self)
    }
}
