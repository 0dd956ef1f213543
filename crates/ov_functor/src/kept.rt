//! Whole transactions on a map from keys to values, as code keeps or finds it.
ghost use Rattle.std.specs.Prelude.{◌≡◌, IfOk};
ghost use Rattle.ov_base.specs.declared.value.Value.{Value};
ghost use Rattle.ov_base.specs.declared.value.Value.TheVariants.{Number};
ghost use Rattle.ov_functor.specs.Execution.{Map, got, hold, moves_of, reply_of};
ghost use Rattle.ov_functor.specs.Kept.{map_by, own};

use crate::item::Shown;
use crate::part::{Move, Part};
use crate::reply::Reply;
use crate::transaction::Transaction;
use ov_base::{Amount, Key, Memory, Sequence, Value, Version};
use std::alloc::Global;
use std::collections::BTreeMap;

/// What a map keeps of a key. A key of which it keeps nothing is absent.
pub trait Kept {
    /// The value of that key.
    ghost value: { Self → Value };

    /// The value of that key. Does not allocate.
    fn value(&self) -> Value
        ensures { result ≡ value self.now };
}

impl Kept for Amount {
    ghost value = { Number };

    fn value(&self) -> Value {
        Value::Number(*self)
    }
}

impl Kept for Value {
    ghost value = { own };

    fn value(&self) -> Value {
        *self
    }
}

/// Where the value of each key is found.
pub trait Lookup {
    /// The map from keys to values.
    ghost map: { Self → Map };

    /// The value of a key, absent where it has none. Does not allocate.
    fn value_of(&self, key: &Key) -> Value
        ensures { result ≡ map self.now key.now };
}

impl<T: Kept> Lookup for BTreeMap<Key, T> {
    ghost map = { map_by T.value };

    fn value_of(&self, key: &Key) -> Value {
        match self.get(key) {
            None => Value::Absent,
            Some(one) => one.value(),
        }
    }
}

/// The reply of a transaction at this version, executed on these values. The only error is out of memory.
pub fn reply_on<L: Lookup>(
    alloc: Global,
    version: Version,
    transaction: &Transaction,
    values: &L,
) -> Result<Reply, Memory>
    ensures { IfOk result (λ r. r ≡ reply_of (L.map values.now) version transaction.now) }
{
    let gets = gets_of(alloc, transaction.parts(), values)?;
    if moves_hold(transaction.parts(), values) {
        Ok(Reply::Done { version, gets })
    } else {
        Ok(Reply::Aborted { version, gets })
    }
}

/// Whether all moves among the parts hold on these values. Does not allocate.
pub fn moves_hold<L: Lookup>(parts: &[Part], values: &L) -> bool
    ensures { result ≡ hold (L.map values.now) (moves_of parts.now) }
{
    for part in parts {
        if let Part::Move { from, to, amount } = part {
            let one = Move {
                from: *from,
                to: *to,
                amount: *amount,
            };
            if !one.holds(values.value_of(from), values.value_of(to)) {
                return false;
            }
        }
    }
    true
}

/// What the gets among the parts show.
fn gets_of<L: Lookup>(alloc: Global, parts: &[Part], values: &L) -> Result<Sequence<Shown>, Memory>
    ensures { IfOk result (λ gets. gets ≡ got (L.map values.now) parts.now) }
{
    let mut gets = Sequence::new(alloc);
    for part in parts {
        if let Part::Get { key } = part {
            gets.push(Shown {
                key: *key,
                value: values.value_of(key),
            })?;
        }
    }
    Ok(gets)
}
