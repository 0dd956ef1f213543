//! The codes of values: 0 is no value, 1 is absent, and `n + 10^18 + 2` is the number n.
ghost use Rattle.std.specs.Prelude.{◌≡◌, ◌+◌, ◌*◌, ◌≤◌, None, Some};
ghost use Rattle.ov_base.specs.Amount.{most};
ghost use Rattle.ov_base.specs.Value.{IsValue};
ghost use Rattle.ov_base.specs.declared.value.Value.{Value};
ghost use Rattle.ov_cells.specs.Codes.{code};

use ov_base::{Amount, Value};

/// The greatest amount, `10^18`.
const MOST: i64 = 1_000_000_000_000_000_000;

/// The code of a value.
pub fn word_of(value: Value) -> u64
    ensures code { result ≡ code value }
    ensures form { IsValue value }
{
    match value {
        Value::Absent => 1,
        Value::Number(amount) => (amount.get() + MOST) as u64 + 2,
    }
}

/// The value that a word holds, None for 0. Condition: no value's code is less than the word.
pub fn value_in(word: u64) -> Option<Value>
    requires { word ≤ 2 * most + 2 }
    ensures none { word ≡ 0 → result ≡ None }
    ensures some { (value : Value) → IsValue value → word ≡ code value → result ≡ Some value }
{
    if word == 0 {
        None
    } else {
        Some(value_of(word))
    }
}

/// The value of a code. Condition: no value's code is less than the word.
pub fn value_of(word: u64) -> Value
    requires { word ≤ 2 * most + 2 }
    ensures { (value : Value) → IsValue value → word ≡ code value → result ≡ value }
{
    if word < 2 {
        return Value::Absent;
    }
    match Amount::new((word - 2) as i64 - MOST) {
        Some(amount) => Value::Number(amount),
        None => Value::Absent,
    }
}
