//! Executing one whole transaction on the amounts of the keys.
ghost use Rattle.std.specs.Prelude.{◌≡◌, ◌++◌, OnOk, IfOk};
ghost use Rattle.ov_base.specs.declared.value.Value.TheVariants.{Number};
ghost use Rattle.ov_functor.specs.Execution.{exec, set, least_value, greatest_value};
ghost use Rattle.ov_serial.specs.Results.{set_back, value_in, writes_in, writes_of};

use ov_base::{Amount, Key, Memory, Sequence, Value};
use ov_functor::{Lookup, Part, Shown, Transaction, moves_hold};
use std::alloc::Global;
use std::collections::BTreeMap;

/// Executes the whole transaction: where all its moves hold, each part writes what it makes of the old
/// values. The only error is out of memory.
pub(crate) fn execute(
    alloc: Global,
    transaction: &Transaction,
    values: &mut BTreeMap<Key, Amount>,
) -> Result<(), Memory>
    ensures { OnOk result (value_in values.new ≡ exec (value_in values.old) transaction.now) }
{
    if !moves_hold(transaction.parts(), values) {
        return Ok(());
    }
    let writes = writes_of(alloc, transaction.parts(), values)?;
    set_all(writes.as_slice(), values)
}

/// What the parts write, from the old values, in the order of the parts.
fn writes_of(
    alloc: Global,
    parts: &[Part],
    values: &BTreeMap<Key, Amount>,
) -> Result<Sequence<Shown>, Memory>
    ensures { IfOk result (λ writes. writes ≡ writes_of (value_in values.now) parts.now) }
{
    let mut writes = Sequence::new(alloc);
    for part in parts {
        add_writes(part, values, &mut writes)?;
    }
    Ok(writes)
}

/// Adds what the part writes, from the old values.
fn add_writes(
    part: &Part,
    values: &BTreeMap<Key, Amount>,
    writes: &mut Sequence<Shown>,
) -> Result<(), Memory>
    ensures { OnOk result (writes.new ≡ writes.old ++ writes_in (value_in values.now) part.now) }
{
    match part {
        Part::Put { key, amount } => writes.push(number(key, *amount)),
        Part::Del { key } => writes.push(Shown {
            key: *key,
            value: Value::Absent,
        }),
        Part::Add { key, amount } => {
            writes.push(number(key, values.value_of(key).or_zero().sum(*amount)))
        }
        Part::Least { key, amount } => {
            writes.push(number(key, least_with(values.value_of(key), *amount)))
        }
        Part::Greatest { key, amount } => {
            writes.push(number(key, greatest_with(values.value_of(key), *amount)))
        }
        Part::Move { from, to, amount } => {
            writes.push(number(from, values.value_of(from).or_zero().difference(*amount)))?;
            writes.push(number(to, values.value_of(to).or_zero().sum(*amount)))
        }
        Part::Get { .. } => Ok(()),
    }
}

fn number(key: &Key, amount: Amount) -> Shown
    ensures { result ≡ record { key = key.now; value = Number amount } }
{
    Shown {
        key: *key,
        value: Value::Number(amount),
    }
}

fn least_with(value: Value, amount: Amount) -> Amount
    ensures { result ≡ least_value value amount }
{
    match value {
        Value::Absent => amount,
        Value::Number(old) => old.least(amount),
    }
}

fn greatest_with(value: Value, amount: Amount) -> Amount
    ensures { result ≡ greatest_value value amount }
{
    match value {
        Value::Absent => amount,
        Value::Number(old) => old.greatest(amount),
    }
}

/// Sets these values, from the last to the first.
fn set_all(writes: &[Shown], values: &mut BTreeMap<Key, Amount>) -> Result<(), Memory>
    ensures { OnOk result (value_in values.new ≡ set_back (value_in values.old) writes.now) }
{
    for place in (0..writes.len()).rev() {
        let one = writes[place];
        set_one(one.key, one.value, values)?;
    }
    Ok(())
}

fn set_one(key: Key, value: Value, values: &mut BTreeMap<Key, Amount>) -> Result<(), Memory>
    ensures { OnOk result (value_in values.new ≡ set key value (value_in values.old)) }
{
    match value {
        Value::Absent => {
            values.remove(&key);
        }
        Value::Number(amount) => {
            values.insert(key, amount)?;
        }
    }
    Ok(())
}
