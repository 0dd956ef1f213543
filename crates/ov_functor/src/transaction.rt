//! Transactions: what is executed whole at one version.
ghost use Rattle.std.specs.Prelude.{◌≡◌, ◌≤◌, [], ◌++◌, true, length, IfOk, Some, None, if◌then◌else◌};
ghost use Rattle.std.specs.List.{list_all};
ghost use Rattle.ov_base.specs.Lemmas.{exact_tests};
ghost use Rattle.ov_functor.specs.Execution.{moves_of};
ghost use Rattle.ov_functor.specs.Functor.{functor_of, effect_of, effect_in, effect_at};
ghost use Rattle.ov_functor.specs.Lemmas.Parts.{parts-cases};
ghost use Rattle.ov_functor.specs.Transaction.{IsTransaction, transaction_error, made_by, repeated_from, repeated_in, key_if, gets, is_written, is_got, is_positive};

use crate::effect::Effect;
use crate::error::TxnError;
use crate::functor::Functor;
use crate::part::{Move, Part};
use ov_base::{Key, Memory, Plain, Sequence};
use std::marker::Model;

/// The most parts of a transaction.
const MOST_PARTS: usize = 8;

/// What is executed whole at one version: a list of 1 to 8 parts, none of whose keys is written twice or got
/// twice (docs/STORE.md, Transactions). Contracts see that list.
#[derive(Debug, PartialEq, Eq, Drop)]
pub struct Transaction {
    parts: Sequence<Part>,
}

impl Model for Transaction {
    ghost use Rattle.std.specs.Prelude.{List};
    ghost use Rattle.ov_functor.specs.declared.part.Part.{Part};

    ghost Value = { List Part };

    ghost use Rattle.ov_functor.specs.Transaction.{IsTransaction};

    ghost view = { λ t. t.parts };

    ghost invariant = { λ t. IsTransaction t.parts };

    ghost inverse = { λ parts. record { parts = parts } };
}

impl Transaction {
    /// The transaction of these parts, or why they are none: `Empty` exactly where there is no part,
    /// `TooMany` exactly where there are more than 8, and else `SameKey` exactly where a key is written twice
    /// or got twice, with the first in reading order that repeats an earlier one of its kind. Does not allocate.
    /// Condition: each move is of at least 1.
    pub fn new(parts: Vec<Part>) -> Result<Transaction, TxnError>
        requires { list_all is_positive parts.items ≡ true }
        ensures { result ≡ made_by (transaction_error parts.items) parts.items }
    {
        match error_of(parts.as_slice()) {
            None => Ok(Transaction {
                parts: Sequence::from_vec(parts),
            }),
            Some(error) => Err(error),
        }
    }

    /// Its parts, in their order.
    pub fn parts(&self) -> &[Part]
        ensures parts { result.now ≡ self.now }
        ensures form { IsTransaction self.now }
    {
        self.parts.as_slice()
    }

    /// The functor of this key. None exactly where the key is not written. The only error is out of memory.
    pub fn functor_for(&self, key: Key) -> Result<Option<Functor>, Memory>
        ensures { IfOk result (λ f. f ≡ functor_of self.now key) }
    {
        match effect_for(self.parts(), &key) {
            None => Ok(None),
            Some(effect) => Ok(Some(Functor::of(key, effect, self.moves()?))),
        }
    }

    /// Its moves, in their order. The only error is out of memory.
    fn moves(&self) -> Result<Sequence<Move>, Memory>
        ensures moves { IfOk result (λ moves. moves ≡ moves_of self.now) }
        ensures few { IfOk result (λ moves. length moves ≤ 8) }
    {
        moves_after(self.parts.empty(), self.parts())
    }
}

/// These moves, and after them the moves of the parts, in their order. The only error is out of memory.
fn moves_after(mut moves: Sequence<Move>, parts: &[Part]) -> Result<Sequence<Move>, Memory>
    ensures { IfOk result (λ all. all ≡ moves ++ moves_of parts.now) }
{
    for part in parts {
        if let Part::Move { from, to, amount } = part {
            moves.push(Move {
                from: *from,
                to: *to,
                amount: *amount,
            })?;
        }
    }
    Ok(moves)
}

/// Why parts are no transaction.
fn error_of(parts: &[Part]) -> Option<TxnError>
    ensures { result ≡ transaction_error parts.now }
{
    if parts.is_empty() {
        return Some(TxnError::Empty);
    }
    if parts.len() > MOST_PARTS {
        return Some(TxnError::TooMany);
    }
    match repeated_key(parts) {
        None => None,
        Some(key) => Some(TxnError::SameKey(key)),
    }
}

/// The first key in reading order that repeats an earlier one of its kind.
fn repeated_key(parts: &[Part]) -> Option<Key>
    ensures { result ≡ repeated_from [] parts.now }
{
    for (index, part) in parts.iter().enumerate() {
        if let Some(key) = repeats(part, &parts[..index]) {
            return Some(key);
        }
    }
    None
}

/// The first key of the part that repeats one of its kind in these parts before it.
fn repeats(part: &Part, earlier: &[Part]) -> Option<Key>
    ensures { result ≡ repeated_in earlier.now part.now }
{
    match part {
        Part::Put { key, .. } => key_where(writes(earlier, key), key),
        Part::Del { key } => key_where(writes(earlier, key), key),
        Part::Add { key, .. } => key_where(writes(earlier, key), key),
        Part::Least { key, .. } => key_where(writes(earlier, key), key),
        Part::Greatest { key, .. } => key_where(writes(earlier, key), key),
        Part::Move { from, to, .. } => {
            if writes(earlier, from) {
                Some(*from)
            } else {
                key_where(from == to || writes(earlier, to), to)
            }
        }
        Part::Get { key } => key_where(has_get(earlier, key), key),
    }
}

fn key_where(repeats: bool, key: &Key) -> Option<Key>
    ensures { result ≡ key_if repeats key.now }
{
    if repeats { Some(*key) } else { None }
}

/// Whether a part of these writes the key.
fn writes(parts: &[Part], key: &Key) -> bool
    ensures { result ≡ is_written key.now parts.now }
{
    effect_for(parts, key).is_some()
}

/// Whether a part of these gets the key.
fn has_get(parts: &[Part], key: &Key) -> bool
    ensures { result ≡ is_got key.now parts.now }
{
    parts.iter().any(|part| is_get_of(part, key))
}

fn is_get_of(part: &Part, key: &Key) -> bool
    ensures { result ≡ gets key.now part.now }
{
    match part {
        Part::Get { key: got } => got == key,
        _ => false,
    }
}

/// The effect of the first part that writes the key.
fn effect_for(parts: &[Part], key: &Key) -> Option<Effect>
    ensures { result ≡ effect_of key.now parts.now }
{
    for part in parts {
        if let Some(effect) = effect_in(part, key) {
            return Some(effect);
        }
    }
    None
}

/// The effect of the part on the key, where it writes the key.
fn effect_in(part: &Part, key: &Key) -> Option<Effect>
    ensures { result ≡ effect_in key.now part.now }
{
    match part {
        Part::Put { key: one, amount } => effect_where(one == key, Effect::Put(*amount)),
        Part::Del { key: one } => effect_where(one == key, Effect::Del),
        Part::Add { key: one, amount } => effect_where(one == key, Effect::Add(*amount)),
        Part::Least { key: one, amount } => effect_where(one == key, Effect::Least(*amount)),
        Part::Greatest { key: one, amount } => effect_where(one == key, Effect::Greatest(*amount)),
        Part::Move { from, to, amount } => {
            if from == key {
                Some(Effect::Out(*amount))
            } else {
                effect_where(to == key, Effect::In(*amount))
            }
        }
        Part::Get { .. } => None,
    }
}

fn effect_where(holds: bool, effect: Effect) -> Option<Effect>
    ensures { result ≡ (if holds then Some effect else None) }
{
    if holds { Some(effect) } else { None }
}

impl Plain for Transaction {
    ghost exact = { λ x y h. Prim.grind (exact_tests, parts-cases) };

    fn copy(&self) -> Result<Transaction, Memory> {
        Ok(Transaction {
            parts: self.parts.copy()?,
        })
    }
}
