//! The value of a key.
ghost use Rattle.std.specs.Prelude.{◌≡◌, ◌++◌, OnOk, OnErr};
ghost use Rattle.ov_base.specs.Lemmas.{exact_tests};
ghost use Rattle.ov_base.specs.Value.{IsValue, or_zero, value_text, value_of};
ghost use Rattle.ov_base.specs.Word.{Reads};

use crate::amount::Amount;
use crate::memory::Memory;
use crate::plain::Plain;

/// What a key has: nothing, or an amount (docs/STORE.md, Values).
#[derive(Clone, Copy, Debug, PartialEq, Eq)]
pub enum Value {
    /// The key is absent.
    Absent,
    /// The key has this amount.
    Number(Amount),
}

impl Value {
    /// Its amount; an absent value counts as 0.
    pub fn or_zero(self) -> Amount
        ensures { result ≡ or_zero self }
    {
        match self {
            Value::Absent => Amount::ZERO,
            Value::Number(amount) => amount,
        }
    }

    /// The value that the bytes spell: `absent`, or an amount. None exactly where they spell none. Does
    /// not allocate.
    pub fn parse(text: &[u8]) -> Option<Value>
        ensures exact { result ≡ value_of text.now }
        ensures reads { Reads value_text IsValue text.now result }
    {
        value_read(text)
    }

    /// Writes the one spelling at the end: `absent`, or the amount. On an error the text is as before.
    pub fn print_to(&self, text: &mut Vec<u8>) -> Result<(), Memory>
        ensures ok { OnOk result (text.new.items ≡ text.old.items ++ value_text self.now) }
        ensures err { OnErr result (text.new.items ≡ text.old.items) }
    {
        match self {
            Value::Absent => Ok(text.extend_from_slice(b"absent")?),
            Value::Number(amount) => amount.print_to(text),
        }
    }
}

#[tactic(auto, unfolding(crate::specs::Value::value_of))]
fn value_read(text: &[u8]) -> Option<Value>
    ensures { result ≡ value_of text.now }
{
    if text == b"absent".as_slice() {
        return Some(Value::Absent);
    }
    let amount = Amount::parse(text)?;
    Some(Value::Number(amount))
}

impl Plain for Value {
    ghost exact = { λ x y h. Prim.grind (exact_tests) };

    fn copy(&self) -> Result<Value, Memory> {
        Ok(*self)
    }
}
